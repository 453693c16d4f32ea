// Lines and hanging cells that are cloned: each call can be written, and the clone is read like what it was made from.
use crate::hanging::Hanging;
use crate::line::{CellLine, Line};
use crate::piece::Piece;
use crate::reader::Reader;
use std::test::Fail;

// A sheet of a text and a border with a hole, from which a cell of one line hangs.
const SHEET: [u8; 51] = [
    0x48, 0, 2, 0, 2, // H
    0x4C, 0, 12, 0x53, 0, 5, 1, 0x62, 0x6F, 0x6C, 0x74, 0x46, 0, 1, 0x41, // L: "bolt", A
    0x47, 0, 13, 7, 0, 3, 0, 3, 0, 0, 1, 0x53, 0, 2, 1, 0x78, // G: a hole, "x"
    0x56, 0, 12, 0, 4, 5, 2, 0x4C, 0, 5, 0x53, 0, 2, 1, 0x79, // V: "y"
];

#[test]
fn text_is_cloned(rt: HostRuntime) -> Result<(), Fail> {
    let line = Reader::new(&SHEET).lines().next().ok_or("no line")??;
    let Line::Text(mut pieces) = line.clone()? else {
        return Err("no text")?;
    };
    let text = pieces.next().ok_or("no piece")??;
    assert_eq!(rt;
        text,
        Piece::Text {
            annotation: 1,
            text: b"bolt"
        }
    );
    let name = pieces.next().ok_or("no piece")??;
    assert_eq!(rt; name, Piece::Name(b"A"));
    assert!(rt; pieces.next().is_none());
    Ok(())
}

#[test]
fn border_is_cloned(rt: HostRuntime) -> Result<(), Fail> {
    let mut lines = Reader::new(&SHEET).lines();
    lines.next().ok_or("no line")??;
    let line = lines.next().ok_or("no line")??;
    let Line::Border {
        annotation,
        segments,
        mut holes,
    } = line.clone()?
    else {
        return Err("no border")?;
    };
    assert_eq!(rt; annotation, 7);
    assert_eq!(rt; segments, [0, 3, 0].as_slice());
    let hole = holes.next().ok_or("no hole")??;
    assert_eq!(rt; hole.column, 1);
    assert_eq!(rt;
        hole.piece,
        Piece::Text {
            annotation: 1,
            text: b"x"
        }
    );
    assert!(rt; holes.next().is_none());
    Ok(())
}

#[test]
fn hanging_cell_is_cloned(rt: HostRuntime) -> Result<(), Fail> {
    let cell = Reader::new(&SHEET).overhang().next().ok_or("no cell")??;
    let Hanging {
        position,
        width,
        rows,
        mut lines,
    } = cell.clone()?;
    assert_eq!(rt; (position, width, rows), (4, 5, 2));
    let line = lines.next().ok_or("no line")??;
    let CellLine(Line::Text(mut pieces)) = line.clone()? else {
        return Err("no text")?;
    };
    let text = pieces.next().ok_or("no piece")??;
    assert_eq!(rt;
        text,
        Piece::Text {
            annotation: 1,
            text: b"y"
        }
    );
    assert!(rt; lines.next().is_none());
    Ok(())
}
