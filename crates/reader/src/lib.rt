// The reading place: the caller's bytes, held and not copied, and a position in them that moves past each number.

#![tactic(auto)]

ghost use Rattle.std.specs.Prelude.{◌≡◌};

#[derive(Clone, Copy)]
pub struct Reader<'a> {
    pub src: &'a [u8],
    pub place: usize,
}

impl<'a> Reader<'a> {
    ghost use Rattle.reader.specs.Standing.{standing, Passes, value_there};
    ghost use Rattle.file_numbers.specs.Number.{number};

    // A reader of the caller's bytes, at the first of them.
    pub fn new(src: &'a [u8]) -> Self
        ensures src { result.src ≡ src.entry }
        ensures standing { standing result ≡ record { bytes = src.entry.now; place = 0 } }
    {
        Reader::at(src, 0)
    }

    // A reader of the caller's bytes, at a place, which may lie behind the last of them.
    pub fn at(src: &'a [u8], place: usize) -> Self
        ensures src { result.src ≡ src.entry }
        ensures standing { standing result ≡ record { bytes = src.entry.now; place = place } }
    {
        Reader { src, place }
    }

    // Where reading stands.
    pub fn place(&self) -> usize
        ensures { result ≡ self.now.place }
    {
        self.place
    }

    // The number at the reading place, which stays.
    pub fn peek(&self) -> Option<u32>
        ensures { result ≡ value_there (number (standing self.now).bytes (standing self.now).place) }
    {
        file_numbers::read_number(self.src, self.place).map(|n| n.value)
    }

    // The number at the reading place, which moves past it; a number at fault is not passed.
    pub fn number(&mut self) -> Option<u32>
        ensures src { self.new.src ≡ self.old.src }
        ensures passes { Passes (standing self.old) (standing self.new) result }
    {
        let number = file_numbers::read_number(self.src, self.place)?;
        self.place = number.next;
        Some(number.value)
    }
}
