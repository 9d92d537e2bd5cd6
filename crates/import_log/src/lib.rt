// A tray's log, line by line: the tray after the lines so far, and how many they were.
#![tactic(auto)]

ghost use Rattle.std.specs.Prelude.{◌≡◌};
ghost use Rattle.import_log.specs.Logs.{next_number, new_log, taken, area_after};

use import_tray::Tray;
use stock_table::Row;

#[derive(Clone, Copy)]
pub struct Log {
    pub tray: Tray,
    // How many lines there were.
    pub lines: u64,
}

// The log after a line, and the row that the line writes, if any.
#[derive(Clone, Copy)]
pub struct Taken {
    pub log: Log,
    pub report: Option<Row>,
}

// No line yet.
pub fn new_log() -> Log
    ensures { result ≡ new_log }
{
    Log {
        tray: import_tray::new_tray(),
        lines: 0,
    }
}

fn next_number(lines: u64) -> u64
    ensures { result ≡ next_number lines }
{
    if lines < u64::MAX { lines + 1 } else { lines }
}

// Takes the next line, of any length and content.
pub fn take_line(log: Log, area: &mut [u8], line: &[u8]) -> Taken
    ensures { (result ≡ taken log area.old line.now)
        × (area.new ≡ area_after log area.old line.now) }
{
    let number = next_number(log.lines);
    let step = import_lines::import_line(log.tray, area, number, line);
    Taken {
        log: Log {
            tray: step.tray,
            lines: number,
        },
        report: step.report,
    }
}
