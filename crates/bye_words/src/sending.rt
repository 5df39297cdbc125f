//! Lines are sent piece by piece, without memory.

ghost use Rattle.std.specs.Prelude.{◌≡◌, ◌+◌, ◌<◌, ◌≤◌, ◌∷◌, ◌++◌, [], codes, OnOk, OnErr};
ghost use Rattle.std.specs.Fmt.{decimal};
ghost use Rattle.std.specs.List.{flat_map};
ghost use Rattle.std.specs.Io.KnownBytes.{Appends};
ghost use Rattle.bye_io.specs.Bytes.{AppendsPart};
ghost use Rattle.bye_io.specs.Counts.{Rose};
ghost use Rattle.bye_words.specs.Lines.{node_text, err_line};
ghost use Rattle.bye_words.specs.Told.{piece_text};

use crate::line::refusal_line;
use crate::piece::{Piece, line_pieces};
use crate::refusal::Refusal;
use bye_io::{Failed, Sink, write_all};

fn send_digit<S: Sink>(sink: &mut S, digit: u64) -> Result<(), Failed>
    requires { digit < 10 }
    ensures whole { OnOk result (Appends (S.sent sink.old) (S.sent sink.new) ((48 + digit) ∷ [])) }
    ensures part { OnErr result (AppendsPart (S.sent sink.old) (S.sent sink.new) ((48 + digit) ∷ [])) }
    ensures cause { OnErr result (Rose (S.faults sink.old) (S.faults sink.new)) }
    ensures later { S.faults sink.old ≤ S.faults sink.new }
    ensures doors { S.doors sink.new ≡ S.doors sink.old }
    ensures aside { S.aside sink.new ≡ S.aside sink.old }
{
    write_all(sink, &[b'0' + digit as u8])
}

/// Sends a number in decimal digits.
fn send_number<S: Sink>(sink: &mut S, number: u64) -> Result<(), Failed>
    ensures whole { OnOk result (Appends (S.sent sink.old) (S.sent sink.new) (decimal number)) }
    ensures part { OnErr result (AppendsPart (S.sent sink.old) (S.sent sink.new) (decimal number)) }
    ensures cause { OnErr result (Rose (S.faults sink.old) (S.faults sink.new)) }
    ensures later { S.faults sink.old ≤ S.faults sink.new }
    ensures doors { S.doors sink.new ≡ S.doors sink.old }
    ensures aside { S.aside sink.new ≡ S.aside sink.old }
{
    if number < 10 {
        return send_digit(sink, number);
    }
    send_number(sink, number / 10)?;
    send_digit(sink, number % 10)
}

/// Sends a number after a dot.
fn send_dotted<S: Sink>(sink: &mut S, number: u64) -> Result<(), Failed>
    ensures whole { OnOk result (Appends (S.sent sink.old) (S.sent sink.new) (codes "." ++ decimal number)) }
    ensures part { OnErr result (AppendsPart (S.sent sink.old) (S.sent sink.new) (codes "." ++ decimal number)) }
    ensures cause { OnErr result (Rose (S.faults sink.old) (S.faults sink.new)) }
    ensures later { S.faults sink.old ≤ S.faults sink.new }
    ensures doors { S.doors sink.new ≡ S.doors sink.old }
    ensures aside { S.aside sink.new ≡ S.aside sink.old }
{
    write_all(sink, b".")?;
    send_number(sink, number)
}

/// Sends numbers, each after a dot.
fn send_numbers<S: Sink>(sink: &mut S, numbers: &[u32]) -> Result<(), Failed>
    ensures whole { OnOk result (Appends (S.sent sink.old) (S.sent sink.new) (flat_map (λ n. codes "." ++ decimal n) numbers.now)) }
    ensures part { OnErr result (AppendsPart (S.sent sink.old) (S.sent sink.new) (flat_map (λ n. codes "." ++ decimal n) numbers.now)) }
    ensures cause { OnErr result (Rose (S.faults sink.old) (S.faults sink.new)) }
    ensures later { S.faults sink.old ≤ S.faults sink.new }
    ensures doors { S.doors sink.new ≡ S.doors sink.old }
    ensures aside { S.aside sink.new ≡ S.aside sink.old }
{
    match numbers.split_first() {
        Some((first, rest)) => {
            send_dotted(sink, *first as u64)?;
            send_numbers(sink, rest)
        }
        None => Ok(()),
    }
}

/// Sends the numbers on the way to a node.
fn send_node<S: Sink>(sink: &mut S, path: &[u32]) -> Result<(), Failed>
    ensures whole { OnOk result (Appends (S.sent sink.old) (S.sent sink.new) (node_text path.now)) }
    ensures part { OnErr result (AppendsPart (S.sent sink.old) (S.sent sink.new) (node_text path.now)) }
    ensures cause { OnErr result (Rose (S.faults sink.old) (S.faults sink.new)) }
    ensures later { S.faults sink.old ≤ S.faults sink.new }
    ensures doors { S.doors sink.new ≡ S.doors sink.old }
    ensures aside { S.aside sink.new ≡ S.aside sink.old }
{
    match path.split_first() {
        Some((first, rest)) => {
            send_number(sink, *first as u64)?;
            send_numbers(sink, rest)
        }
        None => write_all(sink, b"root"),
    }
}

fn send_piece<S: Sink>(sink: &mut S, piece: &Piece<'_>) -> Result<(), Failed>
    ensures whole { OnOk result (Appends (S.sent sink.old) (S.sent sink.new) (piece_text piece.now)) }
    ensures part { OnErr result (AppendsPart (S.sent sink.old) (S.sent sink.new) (piece_text piece.now)) }
    ensures cause { OnErr result (Rose (S.faults sink.old) (S.faults sink.new)) }
    ensures later { S.faults sink.old ≤ S.faults sink.new }
    ensures doors { S.doors sink.new ≡ S.doors sink.old }
    ensures aside { S.aside sink.new ≡ S.aside sink.old }
{
    match piece {
        Piece::Text(text) => write_all(sink, text.as_bytes()),
        Piece::Number(number) => send_number(sink, *number),
        Piece::Word(word) => write_all(sink, word.as_str().as_bytes()),
        Piece::Node(path) => send_node(sink, path),
    }
}

/// Sends the pieces one after the other.
fn send_pieces<S: Sink>(sink: &mut S, pieces: &[Piece<'_>]) -> Result<(), Failed>
    ensures whole { OnOk result (Appends (S.sent sink.old) (S.sent sink.new) (flat_map piece_text pieces.now)) }
    ensures part { OnErr result (AppendsPart (S.sent sink.old) (S.sent sink.new) (flat_map piece_text pieces.now)) }
    ensures cause { OnErr result (Rose (S.faults sink.old) (S.faults sink.new)) }
    ensures later { S.faults sink.old ≤ S.faults sink.new }
    ensures doors { S.doors sink.new ≡ S.doors sink.old }
    ensures aside { S.aside sink.new ≡ S.aside sink.old }
{
    match pieces.split_first() {
        Some((first, rest)) => {
            send_piece(sink, first)?;
            send_pieces(sink, rest)
        }
        None => Ok(()),
    }
}

/// Sends the line of a refusal. Where it fails, a front part was sent that is not all of it.
pub fn send_line<S: Sink>(sink: &mut S, refusal: &Refusal) -> Result<(), Failed>
    ensures whole { OnOk result (Appends (S.sent sink.old) (S.sent sink.new) (err_line refusal.now)) }
    ensures part { OnErr result (AppendsPart (S.sent sink.old) (S.sent sink.new) (err_line refusal.now)) }
    ensures cause { OnErr result (Rose (S.faults sink.old) (S.faults sink.new)) }
    ensures later { S.faults sink.old ≤ S.faults sink.new }
    ensures doors { S.doors sink.new ≡ S.doors sink.old }
    ensures aside { S.aside sink.new ≡ S.aside sink.old }
{
    let line = refusal_line(refusal);
    send_pieces(sink, &line_pieces(&line))
}
