// The writers of frames and of proxy pieces, the check octet and SegN.
use crate::answers::{Answer, letter, malformed, wrong_argument};
use crate::shapes::behind;
use octets::{Written, octet_at, read16, read32};
use transactions::TransactionNumber;

fn write_segment(x: &[u8], id: u32, number: TransactionNumber, output: &mut [u8]) -> Written {
    let index = usize::from(octet_at(x, 7));
    pb_adv_writing::write_segment(id, number, behind(x, 8), index, output)
}

fn write_piece(x: &[u8], output: &mut [u8]) -> Written {
    let size = usize::from(read16(x, 2));
    let index = usize::from(octet_at(x, 5));
    proxy_writing::write_piece(size, octet_at(x, 4), behind(x, 6), index, output)
}

fn written_by(second: u8, x: &[u8], output: &mut [u8]) -> Written {
    let id = read32(x, 2);
    // The number of a transaction, or the reason of a Close.
    let octet = octet_at(x, 6);
    match second {
        b'S' => write_segment(x, id, TransactionNumber(octet), output),
        b'K' => pb_adv_writing::write_acknowledgement(id, TransactionNumber(octet), output),
        b'O' => control_writing::write_open(id, behind(x, 6), output),
        b'A' => control_writing::write_ack(id, output),
        b'C' => control_writing::write_close(id, octet, output),
        _ => write_piece(x, output),
    }
}

// The length of what is written, and the octets from the start of the output.
fn answer_of(written: Written, output: &[u8]) -> Answer {
    let Ok(n) = written else {
        return wrong_argument();
    };
    let length = (n % 65536) as u16;
    letter(b'W').pair(length).part(output, 0, length)
}

// A writer, with the first octets of the output lent.
pub(super) fn perform(second: u8, x: &[u8], output: &mut [u8]) -> Answer {
    let lent = usize::from(read16(x, 0));
    let Some(room) = output.get_mut(..lent) else {
        return malformed();
    };
    let written = written_by(second, x, room);
    answer_of(written, output)
}

pub(super) fn check_octet(x: &[u8]) -> Answer {
    if octets::is_length(x.len()) {
        return letter(b'N').octet(fcs::check_octet(x));
    }
    wrong_argument()
}

pub(super) fn last_segment(x: &[u8]) -> Answer {
    let length = read16(x, 0);
    if octets::is_length(usize::from(length)) {
        let last = transactions::last_segment(length);
        return letter(b'N').octet((last % 256) as u8);
    }
    wrong_argument()
}
