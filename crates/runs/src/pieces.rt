// A reader that gives a few bytes at a time, and is interrupted in between.
use std::io;
use std::io::{ErrorKind, Read};

#[derive(Drop)]
pub(crate) struct Pieces<'a> {
    rest: &'a [u8],
    turn: u8,
}

impl<'a> Pieces<'a> {
    pub(crate) fn new(bytes: &'a [u8]) -> Pieces<'a> {
        Pieces {
            rest: bytes,
            turn: 0,
        }
    }
}

impl Read for Pieces<'_> {
    // In four turns: an interruption, and then one byte, two and three.
    fn read(&mut self, buf: &mut [u8]) -> io::Result<usize> {
        let turn = self.turn % 4;
        self.turn = self.turn.wrapping_add(1);
        if turn == 0 {
            return Err(io::Error::from(ErrorKind::Interrupted));
        }
        let count = usize::from(turn).min(buf.len()).min(self.rest.len());
        buf[..count].copy_from_slice(&self.rest[..count]);
        self.rest = &self.rest[count..];
        Ok(count)
    }
}
