// The words of a command line, and what they ask for together.
//
//     [MARK] [vv5404|vv6404|vv5300] [odd-pixels-first] [-o OUTPUT] [FIRST] [SECOND]
//
// In: what of these the program takes; what each word asks for (crate `command_word`), with its place among the arguments. Out: what is asked
// for, and whether all words were understood. Not understood: a word that begins with `-` and is no option; what the program does not take; a
// sensor, a mark's number, an output or a file too many; -o without a name behind it. Cost: constant for each word.

#![tactic(auto)]

ghost use Rattle.std.specs.Prelude.{◌≡◌};
ghost use Rattle.command_words.specs.Asked.{none_asked, not_understood, sensor_asked, second_asked, name_asked, mark_asked, odd_asked, output_asked, output_named, after_dash, with_word, end_asked};

use command_word::Word;
use profile::Profile;

// What a program takes besides a sensor and a file: a mark's number, odd pixels first, an output, a second file.
#[derive(Clone, Copy)]
pub struct Usage {
    pub mark: bool,
    pub odd: bool,
    pub output: bool,
    pub second: bool,
}

// What is asked for: the sensor, and whether it was named; the mark's number, 0 for every mark; whether the head sends odd pixels first; the
// places of the output's and of the files' names among the arguments, 0 for none; whether the next word is the output's name; and whether all
// words were understood.
#[derive(Clone, Copy)]
pub struct Asked {
    pub profile: Profile,
    pub named: bool,
    pub mark: u64,
    pub odd: bool,
    pub output: usize,
    pub awaited: bool,
    pub first: usize,
    pub second: usize,
    pub understood: bool,
}

impl Asked {
    // Before any word.
    pub fn new() -> Asked
        ensures { result ≡ none_asked }
    {
        let profile = Profile::VV5404;
        Asked {
            profile,
            named: false,
            mark: 0,
            odd: false,
            output: 0,
            awaited: false,
            first: 0,
            second: 0,
            understood: true,
        }
    }

    // With one word more, at place i among the arguments.
    pub fn with(self, usage: Usage, word: Word, i: usize) -> Asked
        ensures { result ≡ with_word usage self word i }
    {
        let awaited = self.awaited;
        if awaited {
            return self.after_dash(word, i);
        }
        match word {
            Word::Sensor(profile) => self.with_sensor(profile),
            Word::OddPixelsFirst => self.with_odd(usage),
            Word::Output => self.with_output(usage),
            Word::Unknown => self.not_understood(),
            Word::Mark(mark) => self.with_mark(usage, mark, i),
            Word::Name => self.with_name(usage, i),
        }
    }

    // Behind the last word: -o has a name behind it.
    pub fn end(self) -> Asked
        ensures { result ≡ end_asked self }
    {
        if self.awaited {
            return self.not_understood();
        }
        self
    }

    // With the word after -o: a name, whatever it asks for elsewhere, but not -o again.
    fn after_dash(self, word: Word, i: usize) -> Asked
        ensures { result ≡ after_dash self word i }
    {
        match word {
            Word::Sensor(_) => self.with_output_name(i),
            Word::OddPixelsFirst => self.with_output_name(i),
            Word::Output => self.not_understood(),
            Word::Unknown => self.with_output_name(i),
            Word::Mark(_) => self.with_output_name(i),
            Word::Name => self.with_output_name(i),
        }
    }

    fn with_sensor(self, profile: Profile) -> Asked
        ensures { result ≡ sensor_asked self profile }
    {
        if self.named {
            return self.not_understood();
        }
        Asked {
            profile,
            named: true,
            mark: self.mark,
            odd: self.odd,
            output: self.output,
            awaited: self.awaited,
            first: self.first,
            second: self.second,
            understood: self.understood,
        }
    }

    // A program that takes no mark takes a word of digits for a name.
    fn with_mark(mut self, usage: Usage, mark: u64, i: usize) -> Asked
        ensures { result ≡ mark_asked usage self mark i }
    {
        if usage.mark {
            if self.mark == 0 {
                self.mark = mark;
                return self;
            }
            return self.not_understood();
        }
        self.with_name(usage, i)
    }

    fn with_name(mut self, usage: Usage, i: usize) -> Asked
        ensures { result ≡ name_asked usage self i }
    {
        if self.first == 0 {
            self.first = i;
            return self;
        }
        self.with_second(usage, i)
    }

    fn with_second(mut self, usage: Usage, i: usize) -> Asked
        ensures { result ≡ second_asked usage self i }
    {
        if usage.second {
            if self.second == 0 {
                self.second = i;
                return self;
            }
            return self.not_understood();
        }
        self.not_understood()
    }

    fn with_odd(mut self, usage: Usage) -> Asked
        ensures { result ≡ odd_asked usage self }
    {
        if usage.odd {
            self.odd = true;
            return self;
        }
        self.not_understood()
    }

    fn with_output(mut self, usage: Usage) -> Asked
        ensures { result ≡ output_asked usage self }
    {
        if usage.output {
            if self.output == 0 {
                self.awaited = true;
                return self;
            }
            return self.not_understood();
        }
        self.not_understood()
    }

    fn with_output_name(mut self, i: usize) -> Asked
        ensures { result ≡ output_named self i }
    {
        self.output = i;
        self.awaited = false;
        self
    }

    fn not_understood(mut self) -> Asked
        ensures { result ≡ not_understood self }
    {
        self.understood = false;
        self
    }
}
