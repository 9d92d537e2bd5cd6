// The proxy filter.
use crate::answers::{Answer, done, letter, refused};
use filter_messages::{FilterRefusal, FilterType, Status, status_octets};
use octets::{octet_at, read16};
use proxy_filter::{Filter, FilterStep};

fn entries_of(x: &[u8]) -> [u16; 16] {
    let mut entries = [0; 16];
    for (i, entry) in entries.iter_mut().enumerate() {
        *entry = read16(x, 2 + 2 * i);
    }
    entries
}

fn set(filter: &mut Filter, x: &[u8]) -> Answer {
    // Each octet but 0 makes a reject list.
    let kind = FilterType::try_from(octet_at(x, 0)).unwrap_or(FilterType::RejectList);
    *filter = Filter {
        kind,
        count: octet_at(x, 1),
        entries: entries_of(x),
    };
    done()
}

pub(super) fn show(filter: Filter) -> Answer {
    let shown = letter(b'F').octet(filter.kind.into()).octet(filter.count);
    filter
        .entries
        .iter()
        .fold(shown, |shown, address| shown.pair(*address))
}

fn answer_of(answered: Result<Status, FilterRefusal>) -> Answer {
    match answered {
        Ok(status) => letter(b'F').part(&status_octets(status.kind, status.count), 0, 4),
        Err(refusal) => refused(refusal_numbers::of_filter(refusal)),
    }
}

fn after(filter: &mut Filter, step: FilterStep) -> Answer {
    *filter = step.filter;
    answer_of(step.answer)
}

fn pass(filter: Filter, address: u16) -> Answer {
    match filter.pass(address) {
        Ok(passes) => letter(b'P').flag(passes),
        Err(refusal) => refused(refusal_numbers::of_filter(refusal)),
    }
}

// An operation by its second letter.
pub(super) fn perform(second: u8, filter: &mut Filter, x: &[u8]) -> Answer {
    match second {
        b'S' => set(filter, x),
        b'D' => show(*filter),
        b'N' => {
            *filter = Filter::new();
            done()
        }
        b'M' => {
            let step = filter.control(x);
            after(filter, step)
        }
        b'L' => {
            let step = filter.learn(read16(x, 0));
            after(filter, step)
        }
        _ => pass(*filter, read16(x, 0)),
    }
}
