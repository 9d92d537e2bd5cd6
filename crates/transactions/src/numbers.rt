// Transaction numbers and sockets.
ghost use Rattle.std.specs.Prelude.{◌≡◌};
ghost use Rattle.transactions.specs.Numbers.{number_after, is_socket, socket_place};

use super::{Socket, TransactionNumber};

impl TransactionNumber {
    // The number after this one in its half: 0x00 after 0x7F, 0x80 after 0xFF.
    pub fn next(self) -> TransactionNumber
        ensures { result ≡ number_after self }
    {
        let t = self.0;
        TransactionNumber(t / 128 * 128 + (t % 128 + 1) % 128)
    }
}

impl Socket {
    // Whether it is one of so many sockets.
    pub fn is_one_of(self, count: u8) -> bool
        ensures { result ≡ is_socket self count }
    {
        1 <= self.0 && self.0 <= count
    }

    // The place of its record and of its part of the area, counted from 0. Socket 0, which no station has, is given place 0.
    pub fn place(self) -> usize
        ensures { result ≡ socket_place self }
    {
        (self.0 as usize).saturating_sub(1)
    }
}
