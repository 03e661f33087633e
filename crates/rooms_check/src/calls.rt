// Scripts of single calls: tables of any length, any letters in them, dockets in hand, and carriers of any size. Each module
// stands on the one that it is in, of which it uses what is private there. Here is what a script asks for, and its answers.
ghost use Rattle.std.specs.Prelude.{◌+◌, ◌<◌, length};

use letters::body::Body;
use letters::job::Job;
use letters::letter::Letter;
use letters::letter_id::LetterId;
use letters::parts::Parts;
use letters::refusal::Refusal;
use letters::stamp::Stamp;
use letters::text::Text;
use records::fault::Fault;
use seats::docket_id::DocketId;
use seats::take_outcome::TakeOutcome;
use std::alloc::AllocError;
use std::{array, fmt, str};

pub mod memory;

fn number_at(bytes: &[u8], place: usize) -> u16
    requires { place + 1 < length bytes.now }
{
    u16::from_le_bytes([bytes[place], bytes[place + 1]])
}

// The 32-bit number at a place.
fn wide_at(bytes: &[u8], place: usize) -> u32
    requires { place + 3 < length bytes.now }
{
    u32::from(number_at(bytes, place)) + 65536 * u32::from(number_at(bytes, place + 2))
}

const SETTING_SIZE: usize = 32;

#[derive(Clone, Copy)]
enum Make {
    Lines,
    Spool,
    Pair,
}

// How a carrier is made: for how many seats, and a pair's spool for how many; how many places a queue has; and how many
// letters and bytes are lent.
#[derive(Clone, Copy)]
struct Size {
    seats: u8,
    spool_seats: u8,
    places: u32,
    letters: usize,
    bytes: usize,
}

// How a script's things are made.
#[derive(Clone, Copy)]
struct ScriptSetting {
    texts: bool,
    make: Make,
    calls: u16,
    places: usize,
    carriers: [Size; 3],
}

// The size of a carrier, of the eight bytes at a place.
fn size_at(bytes: &[u8; SETTING_SIZE], place: usize) -> Size
    requires { place + 7 < SETTING_SIZE }
{
    Size {
        seats: bytes[place],
        spool_seats: bytes[place + 1],
        places: u32::from(number_at(bytes, place + 2)),
        letters: usize::from(number_at(bytes, place + 4)),
        bytes: usize::from(number_at(bytes, place + 6)),
    }
}

impl From<&[u8; SETTING_SIZE]> for ScriptSetting {
    fn from(bytes: &[u8; SETTING_SIZE]) -> ScriptSetting {
        ScriptSetting {
            texts: bytes[0] == 1,
            make: match bytes[1] {
                1 => Make::Lines,
                2 => Make::Spool,
                _ => Make::Pair,
            },
            calls: number_at(bytes, 2),
            places: usize::from(number_at(bytes, 4)),
            carriers: [size_at(bytes, 8), size_at(bytes, 16), size_at(bytes, 24)],
        }
    }
}

// A call at a room, with tables and a carrier.
#[derive(Clone, Copy)]
enum AtRoom {
    Draft,
    Enrol,
    Open,
    CheckOpen,
    Post,
    Send,
    Park,
    Collect,
    Take,
    Show,
    Close,
}

// A call with a letter.
#[derive(Clone, Copy)]
enum WithLetter {
    // writes it into a table
    WriteLog,
    WriteHold,
    Put,
    // only makes it
    Make,
    PutAndDraw,
    OverLines,
    Enter,
}

// A call on the file.
#[derive(Clone, Copy)]
enum OnFile {
    Save,
    Load,
    // writes one byte
    Write,
    ReadRecord,
    // reads one record after the other
    ReadAll,
}

#[derive(Clone, Copy)]
enum Asked {
    AtRoom(AtRoom),
    DrawUp,
    Log,
    Pages,
    // shows sums over the tables, and what a carrier answers to questions
    Look,
    WithLetter(WithLetter),
    Draw,
    MakeText,
    MakeName,
    MakeStrike,
    CheckLines,
    CheckSpool,
    CheckPair,
    OnFile(OnFile),
    CheckRun,
    // draws up a list that is of no room
    DrawUpList,
    ClearSheet,
    ShowSheet,
    Nothing,
}

impl From<u8> for Asked {
    fn from(byte: u8) -> Asked {
        match byte {
            1 => Asked::AtRoom(AtRoom::Draft),
            2 => Asked::AtRoom(AtRoom::Enrol),
            3 => Asked::AtRoom(AtRoom::Open),
            4 => Asked::AtRoom(AtRoom::CheckOpen),
            5 => Asked::AtRoom(AtRoom::Post),
            6 => Asked::AtRoom(AtRoom::Send),
            7 => Asked::AtRoom(AtRoom::Park),
            8 => Asked::AtRoom(AtRoom::Collect),
            9 => Asked::AtRoom(AtRoom::Take),
            10 => Asked::AtRoom(AtRoom::Show),
            11 => Asked::DrawUp,
            12 => Asked::Log,
            13 => Asked::Pages,
            14 => Asked::AtRoom(AtRoom::Close),
            15 => Asked::Look,
            16 => Asked::WithLetter(WithLetter::WriteLog),
            17 => Asked::WithLetter(WithLetter::WriteHold),
            18 => Asked::WithLetter(WithLetter::Put),
            19 => Asked::Draw,
            20 => Asked::MakeText,
            21 => Asked::MakeName,
            22 => Asked::MakeStrike,
            23 => Asked::WithLetter(WithLetter::Make),
            24 => Asked::CheckLines,
            25 => Asked::CheckSpool,
            26 => Asked::CheckPair,
            27 => Asked::OnFile(OnFile::Save),
            28 => Asked::OnFile(OnFile::Load),
            29 => Asked::OnFile(OnFile::Write),
            30 => Asked::OnFile(OnFile::ReadRecord),
            31 => Asked::OnFile(OnFile::ReadAll),
            32 => Asked::WithLetter(WithLetter::PutAndDraw),
            33 => Asked::WithLetter(WithLetter::OverLines),
            34 => Asked::CheckRun,
            35 => Asked::DrawUpList,
            36 => Asked::WithLetter(WithLetter::Enter),
            37 => Asked::ClearSheet,
            38 => Asked::ShowSheet,
            _ => Asked::Nothing,
        }
    }
}

// How many bytes a call has, and where its stamp begins.
const CALL_SIZE: usize = 64;

const STAMP_START: usize = 32;

// What a call asks for, and what it brings; which of this it needs depends on what it asks for.
#[derive(Clone, Copy)]
struct ScriptCall {
    asked: Asked,
    // whether it is made at the second room
    second: bool,
    // which set of tables and which carrier are brought
    set: usize,
    carrier: usize,
    // which hand of a room has the docket, and whether it is the second room's
    right: bool,
    of_second: bool,
    seat: u8,
    // how many letters of the tables are brought
    logs: usize,
    holds: usize,
    wide: u32,
    number: u16,
    poster: u8,
    // the body's parts
    kind: u8,
    code: u32,
    struck: u8,
    struck_number: u16,
    first: u8,
    length: u8,
    stamp: Stamp,
}

impl From<&[u8; CALL_SIZE]> for ScriptCall {
    fn from(bytes: &[u8; CALL_SIZE]) -> ScriptCall {
        ScriptCall {
            asked: Asked::from(bytes[0]),
            second: bytes[1] % 2 == 1,
            set: usize::from(bytes[2] % 2),
            carrier: usize::from(bytes[3] % 3),
            right: bytes[4] % 2 == 1,
            of_second: bytes[5] % 2 == 1,
            seat: bytes[6],
            logs: usize::from(number_at(bytes, 8)),
            holds: usize::from(number_at(bytes, 10)),
            wide: wide_at(bytes, 12),
            number: number_at(bytes, 16),
            poster: bytes[18],
            kind: bytes[19],
            code: wide_at(bytes, 20),
            struck: bytes[24],
            struck_number: number_at(bytes, 26),
            first: bytes[25],
            length: bytes[28],
            stamp: Stamp {
                entries: array::from_fn(|seat| number_at(bytes, STAMP_START + 2 * seat)),
            },
        }
    }
}

// A text's length is one byte, so this many characters are enough for each.
const CHARACTERS: usize = 256;

impl ScriptCall {
    // The characters of a text, as many as any length has.
    fn characters(&self) -> [u8; CHARACTERS] {
        let even = self.first;
        let odd = even.saturating_add(1);
        array::from_fn(|place| if place % 2 == 0 { even } else { odd })
    }

    // The letter that it brings, or why there is none.
    fn letter<B: ScriptBody>(&self) -> Result<Letter<B>, Refusal> {
        let body = B::brought(self)?;
        Letter::new(Parts {
            stamp: self.stamp,
            poster: self.poster,
            body,
        })
    }
}

// A sum to which a number is added.
fn mixed(sum: u32, number: u32) -> u32 {
    sum.wrapping_mul(31).wrapping_add(number)
}

// The sum over all parts of a letter.
fn letter_sum<B: ScriptBody>(letter: &Letter<B>) -> u32 {
    let mut sum = 0;
    for entry in letter.stamp().entries {
        sum = mixed(sum, u32::from(entry));
    }
    letter
        .body()
        .mixed_into(mixed(sum, u32::from(letter.poster())))
}

fn table_sum<B: ScriptBody>(letters: &[Letter<B>]) -> u32 {
    let mut sum = 0;
    for letter in letters {
        sum = mixed(sum, letter_sum(letter));
    }
    sum
}

fn byte_sum(bytes: &[u8]) -> u32 {
    let mut sum = 0;
    for byte in bytes {
        sum = mixed(sum, u32::from(*byte));
    }
    sum
}

// A body that a script can bring, add up and print.
trait ScriptBody: Body {
    // The body that a call brings, or why there is none.
    fn brought(call: &ScriptCall) -> Result<Self, Refusal>;

    // A sum to which the body is added.
    fn mixed_into(&self, sum: u32) -> u32;

    // Adds what the body says.
    fn add_to(&self, lines: &mut String) -> Result<(), AllocError>;
}

impl ScriptBody for Job {
    fn brought(call: &ScriptCall) -> Result<Job, Refusal> {
        if call.kind == 1 {
            return Ok(Job::Add(call.code));
        }
        Job::strike(call.struck, call.struck_number)
    }

    fn mixed_into(&self, sum: u32) -> u32 {
        let number = match self {
            Job::Add(code) => *code,
            Job::Strike(id) => u32::from(id.poster()) * 65536 + u32::from(id.number()) + 7,
        };
        mixed(mixed(sum, 2), number)
    }

    fn add_to(&self, lines: &mut String) -> Result<(), AllocError> {
        match self {
            Job::Add(code) => write!(lines, "add {code}"),
            Job::Strike(id) => write!(lines, "strike {id}"),
        }
    }
}

fn chars(text: &Text) -> &str {
    str::from_utf8(text.as_bytes()).unwrap_or("?")
}

impl ScriptBody for Text {
    fn brought(call: &ScriptCall) -> Result<Text, Refusal> {
        Text::new(&call.characters()[..usize::from(call.length)])
    }

    fn mixed_into(&self, sum: u32) -> u32 {
        let mut sum = mixed(sum, 1);
        for byte in self.as_bytes() {
            sum = mixed(sum, u32::from(*byte));
        }
        sum
    }

    fn add_to(&self, lines: &mut String) -> Result<(), AllocError> {
        let chars = chars(self);
        write!(lines, "text {chars}")
    }
}

// The answer of a call, for a line.
#[derive(Clone, Copy)]
enum AnswerLine {
    // the room or a hand is not as the call's types want it
    Unfit,
    Refused(Refusal),
    Bad(Fault),
    Done,
    Seat(u8),
    Docket(DocketId),
    Taken(TakeOutcome),
    Shown(LetterId),
    Pages(u32),
    Name(LetterId),
    Letters(usize),
    Bytes(usize),
}

impl AnswerLine {
    // Of a call whose line says only whether it was refused.
    fn of<T: Drop>(answer: Result<T, Refusal>) -> AnswerLine {
        match answer {
            Ok(_) => AnswerLine::Done,
            Err(why) => AnswerLine::Refused(why),
        }
    }
}

impl fmt::Display for AnswerLine {
    fn fmt<W: fmt::Write>(&self, f: &mut fmt::Formatter<W>) -> fmt::Result {
        match self {
            AnswerLine::Unfit => write!(f, "unfit"),
            AnswerLine::Refused(why) => write!(f, "refused {why}"),
            AnswerLine::Bad(fault) => write!(f, "refused 20 {} {}", fault.index, fault.byte),
            AnswerLine::Done => write!(f, "done"),
            AnswerLine::Seat(seat) => write!(f, "seat {seat}"),
            AnswerLine::Docket(docket_id) => {
                write!(
                    f,
                    "docket {} {} {}",
                    docket_id.room, docket_id.seat, docket_id.number
                )
            }
            AnswerLine::Taken(taken) => write!(f, "{taken}"),
            AnswerLine::Shown(id) => write!(f, "shown {id}"),
            AnswerLine::Pages(pages) => write!(f, "pages {pages}"),
            AnswerLine::Name(id) => write!(f, "name {id}"),
            AnswerLine::Letters(count) => write!(f, "letters {count}"),
            AnswerLine::Bytes(count) => write!(f, "bytes {count}"),
        }
    }
}
