// The unit, run files, their listings and CSV text for programs in other languages: the functions that host_c exports to C.
#![tactic(auto)]

ghost use Rattle.std.specs.Prelude.{◌≡◌, length};
ghost use Rattle.std.specs.Float.Ieee as Ieee;
ghost use Rattle.std.specs.Float.{binary32};
ghost use Rattle.host.specs.Exported.{converted_numbers};
ghost use Rattle.host.specs.Lent.{LentPromise};
ghost use Rattle.catalog.specs.Listing.{ListingPromise};
ghost use Rattle.export.specs.Export.{export_needs, ExportPromise};
ghost use Rattle.import.specs.Import.{import_needs, ImportPromise};
ghost use Rattle.float.specs.Float.{converted_of};
ghost use Rattle.header.specs.Header.{write_header_refusal, written_header};
ghost use Rattle.format.specs.Reading.{reading_of};
ghost use Rattle.format.specs.Refusal.{write_record_refusal, written_record};
ghost use Rattle.tested.specs.Tested.{file_test_of};
ghost use Rattle.runfile.specs.Run.{RunPromise};
ghost use Rattle.unit.specs.Steps.{fresh_state, PlainPromise};

use csv_rows::{Exchanged, Needed};
use format::reading::Reading;
use raw::Record;
use rules::{Sample, refusal};
use tested::{FileTest, Outcome};
use unit::{Offered, State};
use unit_core::Answer;

// The hundredths of a finite float, cut at a million either way: finite is 1; exact is 1 where 100 times its exact value is a whole number; cut is 1
// where the rounded hundredths are beyond a million either way. Where it is not finite all is 0.
// kept: flags beside the value, as C is handed this struct; the functions here take and answer what C does.
#[repr(C)]
#[derive(Clone, Copy, Default)]
pub struct ConvertedFloat {
    pub finite: u16,
    pub exact: u16,
    pub cut: u16,
    pub hundredths: i32,
}

// The state that has seen no sample.
pub fn windshear_fresh() -> State
    ensures { result ≡ fresh_state }
{
    State::fresh()
}

// A sample offered in the plain form: the answer, and the state after it.
pub fn windshear_offer(state: State, sample: Sample) -> Offered
    ensures { PlainPromise state sample result.answer result.state }
{
    state.offer(sample)
}

// A sample offered in the lent form: the answer, and the lent state is left as the state after it; a refused sample leaves it as it stood.
pub fn windshear_offer_lent(state: &mut State, sample: Sample) -> Answer
    ensures { LentPromise state.old sample result state.new }
{
    let r = State::offer(*state, sample);
    *state = r.state;
    r.answer
}

// The hundredths that the float of a pattern becomes, whether it was exact, and whether they were cut.
// kept: a match, as C's struct is made of it here alone.
#[tactic(auto, unfolding(crate::specs::Exported::converted_numbers))]
pub fn windshear_hundredths(bits: u32) -> ConvertedFloat
    ensures { result ≡ converted_numbers (converted_of (Ieee.of_bits binary32 bits)) }
{
    match float::hundredths(bits) {
        Some(c) => ConvertedFloat {
            finite: 1,
            exact: c.exact as u16,
            cut: c.cut as u16,
            hundredths: c.number,
        },
        None => ConvertedFloat::default(),
    }
}

// Eight header bytes of a version; or 3, 5 or 7, and the buffer untouched.
pub fn windshear_write_header(version: u32, count: u32, buf: &mut [u8]) -> u16
    ensures { (result ≡ write_header_refusal version count (length buf.old)) × (buf.new ≡ written_header version count buf.old) }
{
    refusal::number_of(header::write(version, count, buf))
}

// 24 record bytes, or 26 in version 2; or 3, 7 or 11 to 20, and the buffer untouched.
pub fn windshear_write_record(version: u32, record: Record, buf: &mut [u8]) -> u16
    ensures { (result ≡ write_record_refusal version «record» (length buf.old)) × (buf.new ≡ written_record version «record» buf.old) }
{
    refusal::number_of(format::records::write(version, record, buf))
}

// A file's own test: 1 to 6, then 11 to 21 with the first bad record's place; or the count of its records and its version.
pub fn windshear_test_file(file: &[u8]) -> FileTest
    ensures { result ≡ file_test_of file.now }
{
    tested::test_file(file)
}

// The record at a place, from 0, with its sample and whether its floats were exact; or why there is none to read: 1 to 6, 11 to 20, or 0 where the
// file has no such place.
pub fn windshear_read_record(file: &[u8], place: usize) -> Reading
    ensures { result ≡ reading_of file.now place }
{
    format::reading::record_at(file, place)
}

// A whole run: ten answer bytes a record; or the refusal with its place, and the buffer untouched.
pub fn windshear_run(file: &[u8], answers: &mut [u8]) -> Outcome
    ensures { RunPromise file.now answers.old result answers.new }
{
    runfile::run::run(file, answers)
}

// The listing of a file as the program `listing` prints it, and its length; or 0, and the buffer untouched, where it is shorter than the room.
pub fn windshear_list(file: &[u8], listing: &mut [u8]) -> usize
    ensures { ListingPromise file.now listing.old result listing.new }
{
    catalog::listing(file, listing)
}

// The exact length of the run file that a CSV text becomes; or 23, 24, 11 to 20 with the first bad line's place, or 5.
pub fn windshear_import_length(text: &[u8]) -> Needed
    ensures { result ≡ import_needs text.now }
{
    import::import_length(text)
}

// The run file that a CSV text becomes; or the refusal with its place, and the buffer untouched.
pub fn windshear_import(text: &[u8], file: &mut [u8]) -> Exchanged
    ensures { ImportPromise text.now file.old result file.new }
{
    import::import(text, file)
}

// The exact length of the CSV text that a run file of version 1 becomes; or 1 to 6, 3 for any other version, or 11 to 20 with the first bad record's
// place.
pub fn windshear_export_length(file: &[u8]) -> Needed
    ensures { result ≡ export_needs file.now }
{
    export::export_length(file)
}

// The CSV text that a run file of version 1 becomes; or the refusal with its place, and the buffer untouched.
pub fn windshear_export(file: &[u8], text: &mut [u8]) -> Exchanged
    ensures { ExportPromise file.now text.old result text.new }
{
    export::export(file, text)
}
