// A table of eight readers that two technicians share (paper 02, A12).
//
// In: a technician, 1 or 2, and a place, 0 to 7. Opening gives the lowest free place a fresh reader; feed, run, finish and close are for
// who opened the place. Out: beside the next table, what the reader in that place answers. Refused, with table and buffer as before: 32 no
// such technician; opening: 11 no such profile, 33 no place free; the others: 34 no such place, or it is free or another's, which are told
// alike; then what the reader itself refuses. Finish leaves the place to its technician, and close answers no mark. Cost: the reader's own call,
// and a few copies of the table, 3 kB: feed runs of nibbles rather than single ones.

#![tactic(auto)]

ghost use Rattle.std.specs.Prelude.{◌≡◌};
ghost use Rattle.stream.specs.Answers.{refused, answer_for};
ghost use Rattle.recovery.specs.Calls.{feed, done};
ghost use Rattle.refinement.specs.Runs.{run, one};
ghost use Rattle.reader_table.specs.Table.{empty_table, free_place, place_for, place_at, with_place, lowest_free, open_place_of, open_place, not_opened, call_place_of, close_place_of};
ghost use Rattle.reader_table.specs.Gives.{OpenGives, PlaceGives, FeedPlaceGives, RunPlaceGives};

use profile::Profile;
use reader::Reader;
use refusal::Refusal;
use stream::Answer;

// The places of a table: eight readers (02, A12).
pub const PLACES: usize = 8;

// A place of the table: whose it is, 0 where it is free, and its reader.
#[derive(Clone, Copy)]
pub struct TablePlace {
    pub owner: u8,
    pub reader: Reader,
}

// All places.
#[derive(Clone, Copy)]
pub struct ReaderTable {
    pub places: [TablePlace; PLACES],
}

// A table after an opening, and its answer: the place, or a refusal.
#[derive(Clone, Copy)]
pub struct TableOpened {
    pub table: ReaderTable,
    pub answer: Result<usize, Refusal>,
}

// A table after a call, and its answer; a close that is not refused answers nothing.
#[derive(Clone, Copy)]
pub struct TableFed {
    pub table: ReaderTable,
    pub answer: Answer,
}

// A table after a run of nibbles, the run's answer, and how many nibbles it took.
#[derive(Clone, Copy)]
pub struct TableRunFed {
    pub table: ReaderTable,
    pub answer: Answer,
    pub taken: usize,
}

const NOBODY: u8 = 0;

impl ReaderTable {
    // A table of free places.
    pub fn empty() -> ReaderTable
        ensures { result ≡ empty_table }
    {
        let place = TablePlace::free();
        let places = [place; PLACES];
        ReaderTable { places }
    }

    // Gives the lowest free place to a technician, with a fresh reader of the profile with this number. Refused: 32, 11, 33, in this order.
    pub fn open_reader(self, technician: u8, profile: u8) -> TableOpened
        ensures { OpenGives (open_place_of self technician profile) result }
    {
        if technician::is_technician(technician) {
            return match Profile::numbered(profile) {
                Some(p) => self.open_place(technician, p),
                None => self.not_opened(Refusal::BAD_STATE),
            };
        }
        self.not_opened(Refusal::NO_SUCH_TECHNICIAN)
    }

    // Takes one nibble into the reader of a place. Refused: 32, 34, and as the reader does.
    pub fn feed(self, technician: u8, place: usize, nibble: u8, buffer: &mut [u8]) -> TableFed
        ensures { FeedPlaceGives (call_place_of self technician place (one (feed nibble buffer.old))) result buffer.new }
    {
        let p = self.place_at(place);
        match technician::denial(technician, p.owner) {
            None => {
                let r = p.reader;
                let f = r.feed(nibble, buffer);
                let reader = f.reader;
                let answer = f.answer;
                let table = self.with_reader(place, technician, reader);
                TableFed { table, answer }
            }
            Some(refusal) => self.refuse(refusal),
        }
    }

    // Takes a run of nibbles up to the first answer. Refused: 32, 34, and as the reader does.
    pub fn run(self, technician: u8, place: usize, nibbles: &[u8], buffer: &mut [u8]) -> TableRunFed
        ensures { RunPlaceGives (call_place_of self technician place (run nibbles.now buffer.old)) result buffer.new }
    {
        let p = self.place_at(place);
        match technician::denial(technician, p.owner) {
            None => {
                let r = p.reader;
                let f = run::run(r, nibbles, buffer);
                let reader = f.reader;
                let answer = f.answer;
                let taken = f.taken;
                let table = self.with_reader(place, technician, reader);
                TableRunFed {
                    table,
                    answer,
                    taken,
                }
            }
            Some(refusal) => self.not_run(refusal),
        }
    }

    // Answers the last mark of a place, and leaves it a fresh reader; the place stays its technician's. Refused: 32, 34, and as the reader does.
    pub fn finish(self, technician: u8, place: usize) -> TableFed
        ensures { PlaceGives (call_place_of self technician place (one done)) result }
    {
        let p = self.place_at(place);
        match technician::denial(technician, p.owner) {
            None => {
                let r = p.reader;
                let f = r.finish();
                let reader = f.reader;
                let answer = f.answer;
                let table = self.with_reader(place, technician, reader);
                TableFed { table, answer }
            }
            Some(refusal) => self.refuse(refusal),
        }
    }

    // Frees a place. Refused: 32, 34.
    pub fn close(self, technician: u8, place: usize) -> TableFed
        ensures { PlaceGives (close_place_of self technician place) result }
    {
        let p = self.place_at(place);
        match technician::denial(technician, p.owner) {
            None => {
                let free = TablePlace::free();
                let table = self.put_place(place, free);
                let answer = Answer::Nothing;
                TableFed { table, answer }
            }
            Some(refusal) => self.refuse(refusal),
        }
    }

    // A fresh reader of this profile in the lowest free place. Refused: 33.
    fn open_place(self, technician: u8, profile: Profile) -> TableOpened
        ensures { OpenGives (open_place self technician profile) result }
    {
        let place = self.lowest_free();
        if place < PLACES {
            let reader = Reader::fresh(profile);
            let table = self.with_reader(place, technician, reader);
            return TableOpened {
                table,
                answer: Ok(place),
            };
        }
        self.not_opened(Refusal::NO_PLACE_FREE)
    }

    // The lowest free place; the count of places where all are taken.
    fn lowest_free(self) -> usize
        ensures { result ≡ lowest_free self.places }
    {
        self.places
            .iter()
            .position(|p| p.owner == NOBODY)
            .unwrap_or(PLACES)
    }

    fn not_opened(self, refusal: Refusal) -> TableOpened
        ensures { OpenGives (not_opened self refusal.0) result }
    {
        TableOpened {
            table: self,
            answer: Err(refusal),
        }
    }

    fn refuse(self, refusal: Refusal) -> TableFed
        ensures { (result.table ≡ self) × (result.answer ≡ answer_for (refused refusal.0)) }
    {
        let answer = Answer::Refused(refusal);
        TableFed {
            table: self,
            answer,
        }
    }

    fn not_run(self, refusal: Refusal) -> TableRunFed
        ensures { (result.table ≡ self) × (result.answer ≡ answer_for (refused refusal.0)) × (result.taken ≡ 0) }
    {
        let answer = Answer::Refused(refusal);
        TableRunFed {
            table: self,
            answer,
            taken: 0,
        }
    }

    // The place with this number; one that is not there counts as free.
    fn place_at(self, place: usize) -> TablePlace
        ensures { result ≡ place_at self place }
    {
        if place < PLACES {
            let p = self.places[place];
            return p;
        }
        TablePlace::free()
    }

    // The table with another place at this number; where none is there, as it was.
    fn put_place(mut self, place: usize, p: TablePlace) -> ReaderTable
        ensures { result ≡ with_place self place p }
    {
        if place < PLACES {
            self.places[place] = p;
        }
        self
    }

    fn with_reader(self, place: usize, owner: u8, reader: Reader) -> ReaderTable
        ensures { result ≡ with_place self place (place_for owner reader) }
    {
        let p = TablePlace { owner, reader };
        self.put_place(place, p)
    }
}

impl TablePlace {
    fn free() -> TablePlace
        ensures { result ≡ free_place }
    {
        let reader = Reader::fresh(Profile::VV5404);
        TablePlace {
            owner: NOBODY,
            reader,
        }
    }
}
