// The children that a node keeps, where they are no more than six.
ghost use Rattle.std.specs.Prelude.{◌≡◌, ◌+◌, ◌≤◌, ◌<◌, length, set};

// By rising character; characters and words stand apart, as in the sparse cell that they go to.
#[derive(Clone, Copy)]
pub struct KeptChildren {
    pub characters: [u8; 6],
    pub words: [u32; 6],
    pub count: usize,
    pub ghost few: { count ≤ 6 },
    pub ghost sizes: { (length characters ≡ 6) × (length words ≡ 6) },
}

impl KeptChildren {
    // No child so far.
    pub fn none() -> KeptChildren
        ensures { result.count ≡ 0 }
    {
        KeptChildren {
            characters: [0; 6],
            words: [0; 6],
            count: 0,
        }
    }

    // Holds one more, whose character is above all that are held.
    pub fn push(&mut self, character: u8, word: u32)
        requires { self.old.count < 6 }
        ensures characters { self.new.characters ≡ set self.old.characters self.old.count character }
        ensures words { self.new.words ≡ set self.old.words self.old.count word }
        ensures count { self.new.count ≡ self.old.count + 1 }
    {
        self.characters[self.count] = character;
        self.words[self.count] = word;
        self.count += 1;
    }
}
