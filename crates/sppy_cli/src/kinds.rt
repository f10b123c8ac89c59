ghost use Rattle.std.specs.Prelude.{◌≡◌};
ghost use Rattle.sppy_cli.specs.Kinds.{core_word, file_word, join_word, kind_word, schedule_word, stoch_word, time_word};

use crate::status::{InputFile, InputKind, JoinKind};
use core_lines::CoreKind;
use schedule_lines::ScheduleKind;
use smps_time::TimeKind;
use stoch_lines::StochKind;

/// A file by its part in the command.
pub fn file_word(file: InputFile) -> &'static [u8]
    ensures { result.now ≡ file_word file }
{
    match file {
        InputFile::Core => b"core",
        InputFile::Time => b"time",
        InputFile::Stoch => b"stoch",
        InputFile::Join => b"join",
        InputFile::Schedule => b"schedule",
    }
}

fn core_word(kind: CoreKind) -> &'static [u8]
    ensures { result.now ≡ core_word kind }
{
    match kind {
        CoreKind::NotAscii => b"NotAscii",
        CoreKind::LongLine => b"LongLine",
        CoreKind::Section => b"Section",
        CoreKind::Sense => b"Sense",
        CoreKind::Fields => b"Fields",
        CoreKind::Number => b"Number",
        CoreKind::TooManyPlaces => b"TooManyPlaces",
        CoreKind::TooLarge => b"TooLarge",
        CoreKind::UnknownRow => b"UnknownRow",
        CoreKind::UnknownColumn => b"UnknownColumn",
        CoreKind::Twice => b"Twice",
        CoreKind::NoObjective => b"NoObjective",
        CoreKind::BadBound => b"BadBound",
        CoreKind::Limit => b"Limit",
        CoreKind::EmptyBox => b"EmptyBox",
        CoreKind::NoEnd => b"NoEnd",
    }
}

fn time_word(kind: TimeKind) -> &'static [u8]
    ensures { result.now ≡ time_word kind }
{
    match kind {
        TimeKind::NotAscii => b"NotAscii",
        TimeKind::LongLine => b"LongLine",
        TimeKind::Section => b"Section",
        TimeKind::Fields => b"Fields",
        TimeKind::Unknown => b"Unknown",
        TimeKind::Twice => b"Twice",
        TimeKind::Order => b"Order",
        TimeKind::Limit => b"Limit",
        TimeKind::NoEnd => b"NoEnd",
    }
}

fn stoch_word(kind: StochKind) -> &'static [u8]
    ensures { result.now ≡ stoch_word kind }
{
    match kind {
        StochKind::NotAscii => b"NotAscii",
        StochKind::LongLine => b"LongLine",
        StochKind::Section => b"Section",
        StochKind::Mode => b"Mode",
        StochKind::Fields => b"Fields",
        StochKind::Number => b"Number",
        StochKind::TooManyPlaces => b"TooManyPlaces",
        StochKind::TooLarge => b"TooLarge",
        StochKind::Unknown => b"Unknown",
        StochKind::Weight => b"Weight",
        StochKind::EarlyEntry => b"EarlyEntry",
        StochKind::Anticipates => b"Anticipates",
        StochKind::Clash => b"Clash",
        StochKind::Twice => b"Twice",
        StochKind::Parent => b"Parent",
        StochKind::Limit => b"Limit",
        StochKind::NoEnd => b"NoEnd",
    }
}

fn join_word(kind: JoinKind) -> &'static [u8]
    ensures { result.now ≡ join_word kind }
{
    match kind {
        JoinKind::Anticipates => b"Anticipates",
        JoinKind::TooManyScenarios => b"TooManyScenarios",
        JoinKind::TooManyCells => b"TooManyCells",
    }
}

fn schedule_word(kind: ScheduleKind) -> &'static [u8]
    ensures { result.now ≡ schedule_word kind }
{
    match kind {
        ScheduleKind::NotAscii => b"NotAscii",
        ScheduleKind::LongLine => b"LongLine",
        ScheduleKind::Word => b"Word",
        ScheduleKind::Actor => b"Actor",
        ScheduleKind::Limit => b"Limit",
    }
}

/// The name of a kind of fault, without its file.
pub fn kind_word(kind: InputKind) -> &'static [u8]
    ensures { result.now ≡ kind_word kind }
{
    match kind {
        InputKind::TooLong => b"TooLong",
        InputKind::Core(kind) => core_word(kind),
        InputKind::Time(kind) => time_word(kind),
        InputKind::Stoch(kind) => stoch_word(kind),
        InputKind::Join(kind) => join_word(kind),
        InputKind::Schedule(kind) => schedule_word(kind),
    }
}
