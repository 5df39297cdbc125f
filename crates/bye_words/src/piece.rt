//! The pieces of a line.

ghost use Rattle.std.specs.Prelude.{◌≡◌, ◌++◌, codes};
ghost use Rattle.std.specs.List.{flat_map};
ghost use Rattle.bye_words.specs.Told.{line_text, piece_text};

use crate::line::Line;
use crate::more::More;
use bye_terms::Text;

/// A piece of a line.
#[derive(Clone, Copy)]
pub enum Piece<'a> {
    Text(&'static str),
    Number(u64),
    Word(&'a Text),
    Node(&'a [u32]),
}

fn pieces<'a>(line: &Line<'a>, one: Piece<'a>, link: Piece<'a>, other: Piece<'a>) -> [Piece<'a>; 7]
    ensures { flat_map piece_text result ≡ codes "sparqlbye: " ++ (line.now.head.now ++ (line.now.told.text.now ++ (piece_text one.entry ++ (piece_text link.entry ++ (piece_text other.entry ++ codes "\n"))))) }
{
    [
        Piece::Text("sparqlbye: "),
        Piece::Text(line.head),
        Piece::Text(line.told.text),
        one,
        link,
        other,
        Piece::Text("\n"),
    ]
}

/// The pieces of the line that says this.
pub fn line_pieces<'a>(line: &Line<'a>) -> [Piece<'a>; 7]
    ensures { flat_map piece_text result ≡ codes "sparqlbye: " ++ (line_text line.now ++ codes "\n") }
{
    let nothing = Piece::Text("");
    match line.told.more {
        More::Nothing => pieces(line, nothing, nothing, nothing),
        More::Number(number) => pieces(line, Piece::Number(number), nothing, nothing),
        More::Numbers(one, link, other) => pieces(
            line,
            Piece::Number(one),
            Piece::Text(link),
            Piece::Number(other),
        ),
        More::Word(number, word) => pieces(
            line,
            Piece::Number(number),
            Piece::Text(": "),
            Piece::Word(word),
        ),
        More::Node(path) => pieces(line, Piece::Text(" at node "), Piece::Node(path), nothing),
    }
}
