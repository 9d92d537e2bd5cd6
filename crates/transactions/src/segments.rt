// Where the segments of a message stand.
ghost use Rattle.std.specs.Prelude.{◌≡◌};
ghost use Rattle.transactions.specs.Segments.{seg_n, segment_place, segment_length};

// SegN of a message of so many octets.
pub fn last_segment(length: u16) -> u16
    ensures { result ≡ seg_n length }
{
    let n = length as u32;
    ((n + 2) / 23) as u16
}

// The place of a segment in the message.
pub fn segment_place(index: u16) -> usize
    ensures { result ≡ segment_place index }
{
    if index == 0 {
        0
    } else {
        20 + 23 * (index as usize - 1)
    }
}

// The length of a segment of a message of so many octets; 0 past its end.
pub fn segment_length(length: u16, index: u16) -> usize
    ensures { result ≡ segment_length length index }
{
    let n = length as usize;
    let place = segment_place(index);
    if n <= place {
        return 0;
    }
    let next = 20 + 23 * (index as usize);
    if n < next {
        return n - place;
    }
    next - place
}
