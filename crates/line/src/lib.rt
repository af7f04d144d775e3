// A line of text put into a lent buffer: a word and numbers, and that of a refusal.
#![tactic(auto)]

ghost use mathlib.Core.List.{flat_map};
ghost use Rattle.refusal.specs.Answers.{number_of, place_of};
ghost use Rattle.line.specs.Lines.{field, line, refused_line};
ghost use Rattle.line.specs.Putting.{Put, TextFits};

use refusal::causes::Refusal;

// A lent buffer and where the text in it ends: each method puts its text there. There is no heap,
// so the text is no String.
#[derive(Drop)]
pub struct LineWriter<'a> {
    pub out: &'a mut [u8],
    pub end: usize,
}

impl LineWriter<'_> {
    // Puts a word.
    pub fn put_word(&mut self, word: &[u8])
        requires { TextFits word.now self.old }
        ensures { Put word.now self.old self.new }
    {
        let end = self.end + word.len();
        self.out[self.end..end].copy_from_slice(word);
        self.end = end;
    }

    // Puts one blank and a number in decimal.
    fn put_field(&mut self, n: u64)
        requires { TextFits (field n) self.old }
        ensures { Put (field n) self.old self.new }
    {
        let mut digits = [0u8; 20];
        let count = io::decimal(n, &mut digits);
        self.put_word(b" ");
        self.put_word(&digits[..count]);
    }

    // Puts a field for each number.
    pub fn put_numbers(&mut self, numbers: &[u64])
        requires { TextFits (flat_map field numbers.now) self.old }
        ensures { Put (flat_map field numbers.now) self.old self.new }
    {
        for n in numbers {
            self.put_field(*n);
        }
    }

    // Puts a line: a word, a field for each number, and a newline.
    pub fn put_line(&mut self, word: &[u8], numbers: &[u64])
        requires { TextFits (line word.now numbers.now) self.old }
        ensures { Put (line word.now numbers.now) self.old self.new }
    {
        self.put_word(word);
        self.put_numbers(numbers);
        self.put_word(b"\n");
    }

    // Puts the line of a refusal: its number and its place.
    #[tactic(auto, unfolding(crate::specs::Lines::refused_line))]
    pub fn put_refusal(&mut self, why: Refusal)
        requires { TextFits (refused_line (number_of why) (place_of why)) self.old }
        ensures { Put (refused_line (number_of why) (place_of why)) self.old self.new }
    {
        self.put_line(b"refused", &[why.number(), why.place()]);
    }
}
