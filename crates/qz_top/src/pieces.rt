//! Texts for the error stream, put together of pieces without memory, so that each goes there by one write.
ghost use Rattle.std.specs.Prelude.{◌≡◌, ◌+◌, ◌≤◌, ◌++◌, length};
ghost use Rattle.std.specs.Fmt.{decimal};
ghost use Rattle.arrayvec.specs.ArrayString.{array_string_len};
ghost use Rattle.qz_top.specs.Pieces.{piece_text, pieces_text, piece_room, pieces_room};

use arrayvec::ArrayString;
use itoa::Buffer;

// A text of at most 160 bytes. The longest one is that of a report, with 142 bytes where each number has twenty digits.
pub(crate) type ShortText = ArrayString<160>;

// A piece of a text.
#[derive(Clone, Copy)]
pub(crate) enum Piece<'a> {
    // This text.
    Text(&'a str),
    // This number, in decimal.
    Number(u64),
}

// Appends a text that fits.
fn append(whole: &mut ShortText, text: &str)
    requires { array_string_len whole.old + length text.now ≤ 160 }
    ensures { whole.new.bytes ≡ whole.old.bytes ++ text.now }
{
    let _ = whole.try_push_str(text);
}

// Appends a number, of at most twenty digits.
fn append_number(whole: &mut ShortText, number: u64)
    requires { array_string_len whole.old + 20 ≤ 160 }
    ensures text { whole.new.bytes ≡ whole.old.bytes ++ decimal number }
    ensures room { array_string_len whole.new ≤ array_string_len whole.old + 20 }
{
    let mut buffer = Buffer::new();
    append(whole, buffer.format(number));
}

// Appends a piece.
fn append_piece(whole: &mut ShortText, piece: &Piece<'_>)
    requires { array_string_len whole.old + piece_room piece.now ≤ 160 }
    ensures text { whole.new.bytes ≡ whole.old.bytes ++ piece_text piece.now }
    ensures room { array_string_len whole.new ≤ array_string_len whole.old + piece_room piece.now }
{
    match piece {
        Piece::Text(text) => append(whole, text),
        Piece::Number(number) => append_number(whole, *number),
    }
}

// The text of all pieces, one after another.
pub(crate) fn joined(pieces: &[Piece<'_>]) -> ShortText
    requires { pieces_room pieces.now ≤ 160 }
    ensures { result.bytes ≡ pieces_text pieces.now }
{
    let mut whole = ShortText::new();
    for piece in pieces {
        append_piece(&mut whole, piece);
    }
    whole
}
