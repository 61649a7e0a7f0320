// What a due timer calls.
use bytetext::Text;

/// One call of a timer that is due.
#[derive(Debug, Drop)]
pub struct TimerCall {
    /// The timer's id.
    pub id: u32,
    /// The proc that it calls.
    pub proc: Text,
    /// The argument of the call.
    pub text: Text,
}
