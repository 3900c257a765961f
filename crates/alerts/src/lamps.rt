// The lamps' counters, in frames (01, "Lamps and voice"; 02, A6).
ghost use Rattle.std.specs.Prelude.{◌≡◌};
ghost use Rattle.alerts.specs.Counters.{lamp_next, unless_lit, alert_number, alert_of};

// A lamp's counter after a sample of n frames at which its condition holds or not. It stops at 60, from where only the condition keeps it lit.
// kept: beside voice::next, as past 60 a lamp follows its condition and past 73 the voice stays over (`lamp_next`, `voice_next`).
#[tactic(auto, unfolding(crate::specs::Counters::lamp_next))]
pub fn next(count: u16, n: u16, on: bool) -> u16
    ensures { result ≡ lamp_next count n on }
{
    if count == 0 {
        return u16::from(on);
    }
    let sum = count.saturating_add(n);
    if sum <= 60 {
        sum
    } else if on {
        60
    } else {
        0
    }
}

// "Amber is dark whenever red is lit."
#[tactic(auto, unfolding(crate::specs::Counters::unless_lit))]
pub fn unless(red: u16, amber: u16) -> u16
    ensures { result ≡ unless_lit red amber }
{
    if 0 < red { 0 } else { amber }
}

// What the lamps show, by its number in an answer.
#[derive(Clone, Copy, Debug, PartialEq, Eq)]
pub enum AlertLevel {
    None = 0,
    Amber = 1,
    Red = 2,
}

impl From<AlertLevel> for u16 {
    ghost from_gives = { λ alert number. number ≡ alert_number alert };

    fn from(alert: AlertLevel) -> u16 {
        alert as u16
    }
}

#[tactic(auto, unfolding(crate::specs::Counters::alert_of))]
pub fn alert(red: u16, amber: u16) -> AlertLevel
    ensures { alert_number result ≡ alert_of red amber }
{
    if 0 < red {
        AlertLevel::Red
    } else if 0 < amber {
        AlertLevel::Amber
    } else {
        AlertLevel::None
    }
}
