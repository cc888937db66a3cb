// The records of stdin, as numbers.
ghost use Rattle.std.specs.Prelude.{◌≤◌};

use paper::Shape;

// `letter` is the input's byte: an enum would have the same six names, and a seventh for what is none.
#[derive(Clone, Copy)]
pub struct Record {
    pub letter: u8,
    flags: u8,
    pub byte: u8,
    pub count: u32,
    pub at: u32,
    pub size: u32,
    pub shape: Shape,
}

impl Record {
    pub fn decoded(field: &[u8; 32]) -> Record {
        Record {
            letter: field[0],
            flags: field[1],
            byte: field[2],
            count: number(field, 4),
            at: number(field, 8),
            size: number(field, 12),
            shape: Shape {
                start: number(field, 16),
                end: number(field, 20),
                page: number(field, 24),
                word: number(field, 28),
            },
        }
    }

    pub(crate) fn overwrites(self) -> bool {
        self.flags & 1 != 0
    }

    // How many stores a limited call may make.
    pub(crate) fn limit(self) -> Option<usize> {
        if self.flags & 2 != 0 {
            Some(self.at as usize)
        } else {
            None
        }
    }

    pub(crate) fn is_on_copy(self) -> bool {
        self.flags & 4 != 0
    }

    pub(crate) fn is_filled(self) -> bool {
        self.flags & 8 != 0
    }
}

fn number(field: &[u8; 32], i: usize) -> u32
    requires { i ≤ 28 }
{
    u32::from_le_bytes([field[i], field[i + 1], field[i + 2], field[i + 3]])
}
