//! What was expected, in words.

use ds_line::Expected;
use ds_names::Kind;

/// Returns the expected part in as few words as possible.
pub(crate) fn part(expected: Expected) -> &'static str {
    let wanted = wanted(expected);
    match wanted.split_once(" was expected") {
        Some((part, _)) => part,
        None => match wanted.split_once(" were expected") {
            Some((part, _)) => part,
            None => wanted,
        },
    }
}

/// Returns the sentence about the expected part.
pub(crate) fn wanted(expected: Expected) -> &'static str {
    match expected {
        Expected::Space => "a space was expected before the next part",
        Expected::Name => "NAME was expected, 1 to 64 letters, digits, `.`, `_` and `-`",
        Expected::Kind => "KIND was expected: label, u32, str or mem (no label is named rs)",
        Expected::Owner => {
            "OWNER was expected, 1 to 64 letters, digits, `.`, `_` and `-` (rs, for an offered label)"
        }
        Expected::Epoch => {
            "EPOCH was expected, 0 to 2097151 with no leading zero (from 1, for an offered label)"
        }
        Expected::Dot => "a dot was expected between EPOCH and SEQ",
        Expected::Seq => {
            "SEQ was expected, 0 to 4294967295 with no leading zero (0 or 1, for an offered label)"
        }
        Expected::Mark => {
            "`=` and a value or `-` for a tombstone was expected (for a label, `=` at SEQ 0 and `-` at 1)"
        }
        Expected::Value(kind) => wanted_value(kind),
        Expected::End => "the end of the line was expected",
        Expected::Command => "a command was expected: see --help",
        Expected::Caller => {
            "CALLER was expected, GENERATION/SLOT up to 2097151/1023 (0/2 is RS)"
        }
        Expected::Endpoint => "ENDPOINT was expected, GENERATION/SLOT up to 2097151/1023",
        Expected::Mode => "`new` or `over` was expected",
        Expected::Equals => "`=` and a value were expected",
        Expected::Generation => "GENERATION was expected, 0 to 2097151 with no leading zero",
        Expected::Sub => "SUB was expected, 0 to 127 (eight for each of 16 servers)",
        Expected::Max => "MAX was expected, 1 to 256",
        Expected::Pattern => {
            "PATTERN was expected, in quotes, with \\\" and \\\\ for a quote and a backslash"
        }
        Expected::Kinds => "KINDS was expected, 1 to 15 (label 1, u32 2, str 4, mem 8)",
        Expected::Initial => "`first` or `later` was expected",
        Expected::Map => "J was expected, the number of a map, counted from 0",
        Expected::Limit => "a line has at most 4096 bytes",
        _ => wanted_of_a_world(expected),
    }
}

// Likewise for parts that only lines about a world have.
fn wanted_of_a_world(expected: Expected) -> &'static str {
    match expected {
        Expected::Ring => "N was expected, 1 to 4096",
        Expected::Side => "`a` or `b` was expected",
        Expected::Incarnation => "INCARNATION was expected, a number below 2^64",
        Expected::Position => "POSITION was expected, a number below 2^64",
        Expected::Scope => "SCOPE was expected, `*` or PATTERN KINDS",
        Expected::After => "AFTER was expected, NAME KIND or `-`",
        Expected::Message => "K was expected, the number of a message, counted from 0",
        Expected::Holder => "HOLDER was expected, `a`, `b`, or `m` and the number of a map",
        Expected::Count => "COUNT was expected, a number of items or `*`",
        _ => wanted_of_services(expected),
    }
}

// Likewise for parts that only lines about services and driver tables have.
fn wanted_of_services(expected: Expected) -> &'static str {
    match expected {
        Expected::Request => "`up`, `down`, `refresh` or `restart` was expected",
        Expected::Label => "LABEL was expected, 1 to 64 letters, digits, `.`, `_` and `-`",
        Expected::Tick => "TICK was expected, a number below 2^64",
        Expected::Cause => "CAUSE was expected, a number below 2^64 (1 to 6 are causes)",
        Expected::Server => "`file` or `net` was expected",
        Expected::Major => "MAJOR was expected, 0 to 255",
        Expected::Class => "`block` or `character` was expected",
        Expected::Port => "PORT was expected, 0 to 255",
        Expected::Id => "ID was expected, a number below 2^64",
        _ => "UNIT was expected, 0 to 255",
    }
}

// Likewise for a value of a kind.
fn wanted_value(kind: Kind) -> &'static str {
    match kind {
        Kind::Label => {
            "VALUE was expected, GENERATION/SLOT up to 2097151/1023 (an offered label has its EPOCH as GENERATION)"
        }
        Kind::U32 => "VALUE was expected, 0 to 4294967295 with no leading zero",
        Kind::Str => {
            "VALUE was expected, up to 256 printable characters in quotes, with \\\" and \\\\ for a quote and a backslash"
        }
        Kind::Mem => "VALUE was expected, up to 1024 bytes, two digits 0 to 9 and a to f for each",
    }
}
