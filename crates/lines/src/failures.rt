// What is said on standard error where the system refuses.
use arrayvec::ArrayString;
use std::fmt;
use std::fmt::Write;
use std::io::Error;

// Writes a line to standard error: what failed, a colon, and the reason.
pub fn say_failed<E: Eprint>(rt: &E, what: &str, error: Error) {
    let reason = Reason { error };
    // Where standard error takes nothing there is nobody left to tell.
    let _ = rt.eprintln(format_args!("{what}: {reason}"));
}

// The reason of an error: its text without the number that std puts behind a reason of the system's.
#[derive(Drop)]
struct Reason {
    error: Error,
}

impl fmt::Display for Reason {
    fn fmt<W: fmt::Write>(&self, f: &mut fmt::Formatter<W>) -> fmt::Result {
        let mut text = ArrayString::<512>::new();
        let error = self.error;
        write!(text, "{error}")?;
        f.write_str(without_number(text.as_str()))
    }
}

// A text up to the number of an error of the system's.
fn without_number(text: &str) -> &str {
    match text.split_once(" (os error ") {
        Some((reason, _)) => reason,
        None => text,
    }
}
