//! How texts stand in a table.
use sg_base::Memory;
use std::alloc::Global;
use std::test::Fail;

/// Adds a piece of a text, in which `^` stands for a carriage return and `~` for a byte that is no text.
fn push_bytes(text: &mut Vec<u8>, piece: &str) -> Result<(), Memory> {
    for byte in piece.as_bytes() {
        text.push(match *byte {
            b'^' => b'\r',
            b'~' => 0xff,
            other => other,
        })?;
    }
    Ok(())
}

/// Adds lines between which ` | ` stands.
fn push_lines(text: &mut Vec<u8>, lines: &str) -> Result<(), Memory> {
    for (place, line) in lines.split(" | ").enumerate() {
        if place > 0 {
            text.push(b'\n')?;
        }
        push_bytes(text, line)?;
    }
    Ok(())
}

/// Adds an item, in which this mark stands for its number.
fn push_item(alloc: Global, text: &mut Vec<u8>, item: &str, number: u32) -> Result<(), Fail> {
    for (place, piece) in item.split("#").enumerate() {
        if place > 0 {
            push_bytes(text, format!(in alloc; "{number}")?.as_str())?;
        }
        push_lines(text, piece)?;
    }
    Ok(())
}

/// Adds a text: ` | ` breaks a line, and `%FIRST%END%ITEM%` gives an item for each number from the first on below the
/// end, in which `#` stands for the number.
pub fn push_text(alloc: Global, text: &mut Vec<u8>, short: &str) -> Result<(), Fail> {
    let mut place: u8 = 0;
    let mut first: u32 = 0;
    let mut end: u32 = 0;
    for piece in short.split("%") {
        match place {
            0 => push_lines(text, piece)?,
            1 => first = piece.parse()?,
            2 => end = piece.parse()?,
            _ => {
                for number in first..end {
                    push_item(alloc, text, piece, number)?;
                }
            }
        }
        place = if place < 3 { place + 1 } else { 0 };
    }
    Ok(())
}

/// Puts a text in the place of another.
pub fn set_text(alloc: Global, text: &mut Vec<u8>, short: &str) -> Result<(), Fail> {
    text.clear();
    push_text(alloc, text, short)
}

/// Adds a deployment of the actors p0, p1 and so on, which replay on these hosts, the mutex m1 and the semaphore s1.
pub fn push_actors(alloc: Global, text: &mut Vec<u8>, hosts: &str) -> Result<(), Fail> {
    push_lines(
        text,
        "mutex = [{id = 'm1'}] | semaphore = [{id = 's1', capacity = 0}] | actor = [",
    )?;
    let mut number: u32 = 0;
    for host in hosts.split_whitespace() {
        push_item(alloc, text, "{name = 'p#', host = '", number)?;
        push_bytes(text, host)?;
        push_bytes(text, "', function = 'replay'}, ")?;
        number = number.saturating_add(1);
    }
    push_lines(text, "] | ")?;
    Ok(())
}

/// Adds a text and ends its line.
pub fn push_line(alloc: Global, text: &mut Vec<u8>, short: &str) -> Result<(), Fail> {
    push_text(alloc, text, short)?;
    text.push(b'\n')?;
    Ok(())
}

/// Adds a line so many times, if this is `TIMES LINE`.
pub fn push_times(text: &mut Vec<u8>, counted: &str) -> Result<(), Fail> {
    let (times, line) = counted.split_once(" ").unwrap_or((counted, ""));
    let times: u32 = times.parse()?;
    for _time in 0..times {
        push_lines(text, line)?;
        text.push(b'\n')?;
    }
    Ok(())
}

/// Fills a text up to so many bytes, if this is `BYTES BYTE`; `_` stands for a blank.
pub fn fill(text: &mut Vec<u8>, filling: &str) -> Result<(), Fail> {
    let (bytes, with) = filling.split_once(" ").unwrap_or((filling, "_"));
    let bytes: usize = bytes.parse()?;
    let byte = match with.as_bytes().first() {
        Some(b'_') | None => b' ',
        Some(other) => *other,
    };
    text.resize(bytes, byte)?;
    Ok(())
}
