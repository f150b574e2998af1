// The refusals of the papers' table, each under its name. specs/Refusal.antt has the same names for the definitions.

#![tactic(auto)]

// A refusal, by its number. No enum of the table's names: what is printed, counted and judged of a refusal is promised for every number
// (list_rows::row, Tally::take, Judge and the exported calls' answers), and an enum would leave out those that the table does not have.
#[derive(Clone, Copy, PartialEq, Eq)]
pub struct Refusal(pub u8);

impl Refusal {
    // A mark's answer, 1 to 9.
    pub const DAMAGED_CODE: Refusal = Refusal(1);

    pub const RESERVED_CODE: Refusal = Refusal(2);

    pub const UNFINISHED_LINE: Refusal = Refusal(3);

    pub const WRONG_LENGTH: Refusal = Refusal(4);

    pub const BAD_NUMBER: Refusal = Refusal(5);

    pub const BAD_BODY: Refusal = Refusal(6);

    pub const NO_END_OF_LINE: Refusal = Refusal(7);

    pub const END_WITHOUT_LINE: Refusal = Refusal(8);

    pub const BAD_GAP: Refusal = Refusal(9);

    // A call that is refused, and changes nothing.
    pub const NOT_A_NIBBLE: Refusal = Refusal(10);

    pub const BAD_STATE: Refusal = Refusal(11);

    pub const NO_ROOM: Refusal = Refusal(12);

    pub const BAD_KIND: Refusal = Refusal(13);

    pub const NUMBER_TOO_LARGE: Refusal = Refusal(14);

    pub const WRONG_BODY_LENGTH: Refusal = Refusal(15);

    pub const BYTE_NOT_ALLOWED: Refusal = Refusal(16);

    pub const TOO_MANY_NULLS: Refusal = Refusal(17);

    // A frame that breaks.
    pub const NOT_THE_LINE_DUE: Refusal = Refusal(18);

    pub const BROKEN_LINE: Refusal = Refusal(19);

    // A picture's file.
    pub const BAD_HEADER: Refusal = Refusal(20);

    pub const WRONG_PICTURE_LENGTH: Refusal = Refusal(21);

    pub const BAD_PIXEL: Refusal = Refusal(22);

    // A line whose pixels are put in another order.
    pub const NOT_VISIBLE: Refusal = Refusal(23);

    // A two-wire message that is refused, and changes nothing.
    pub const SHORT_MESSAGE: Refusal = Refusal(24);

    pub const WRONG_ADDRESS: Refusal = Refusal(25);

    pub const WRONG_INDEX: Refusal = Refusal(26);

    pub const WRONG_DATA: Refusal = Refusal(27);

    pub const PAST_LAST_REGISTER: Refusal = Refusal(28);

    // Saved settings.
    pub const BAD_SETTING: Refusal = Refusal(29);

    pub const VERSION_NOT_HELD: Refusal = Refusal(30);

    pub const NO_VERSION_LEFT: Refusal = Refusal(31);

    // A table of readers.
    pub const NO_SUCH_TECHNICIAN: Refusal = Refusal(32);

    pub const NO_PLACE_FREE: Refusal = Refusal(33);

    pub const PLACE_NOT_HELD: Refusal = Refusal(34);

    // Two lists compared.
    pub const NUMBERS_NOT_RISING: Refusal = Refusal(35);

    // A run that is to be explained, and does not begin with a mark.
    pub const NO_MARK_FIRST: Refusal = Refusal(36);

    // A list of saved settings that is none.
    pub const NOT_SAVED_SETTINGS: Refusal = Refusal(37);
}
