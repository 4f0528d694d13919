// Zone files, made byte by byte (RFC 9636).
use std::alloc::{AllocError, Global};

/// The head of a block: the version, and the counts of transitions, types and characters.
fn push_head(out: &mut Vec<u8>, times: u32, types: u32, characters: u32) -> Result<(), AllocError> {
    out.extend_from_slice(b"TZif2")?;
    out.extend_from_slice(&[0; 15])?;
    for count in &[0, 0, 0, times, types, characters] {
        out.extend_from_slice(&count.to_be_bytes())?;
    }
    Ok(())
}

/// The block of the first version, which readers of the second pass over.
fn push_first(out: &mut Vec<u8>) -> Result<(), AllocError> {
    push_head(out, 0, 1, 4)?;
    out.extend_from_slice(&[0; 6])?;
    out.extend_from_slice(b"UTC\0")
}

/// A zone that is always so many seconds ahead of UTC.
pub(crate) fn fixed(alloc: Global, ahead: i32) -> Result<Vec<u8>, AllocError> {
    let mut out = Vec::new(alloc);
    push_fixed(&mut out, ahead)?;
    Ok(out)
}

fn push_fixed(out: &mut Vec<u8>, ahead: i32) -> Result<(), AllocError> {
    push_first(out)?;
    push_head(out, 0, 1, 4)?;
    out.extend_from_slice(&ahead.to_be_bytes())?;
    out.extend_from_slice(b"\0\0XXX\0\n\n")
}

/// A zone an hour ahead of UTC, and two in summer, from 2024 on, with this rule for later years.
pub(crate) fn with_summer(alloc: Global, rule: &str) -> Result<Vec<u8>, AllocError> {
    let mut out = Vec::new(alloc);
    push_first(&mut out)?;
    push_summer(&mut out, rule)?;
    Ok(out)
}

fn push_summer(out: &mut Vec<u8>, rule: &str) -> Result<(), AllocError> {
    push_head(out, 2, 2, 9)?;
    // 2024-03-31 and 2024-10-27, each at 01:00 in UTC.
    for time in &[1_711_846_800_i64, 1_729_990_800] {
        out.extend_from_slice(&time.to_be_bytes())?;
    }
    push_types(out)?;
    out.extend_from_slice(rule.as_bytes())?;
    out.extend_from_slice(b"\n")
}

/// The type of time behind each transition, and the types with their names.
fn push_types(out: &mut Vec<u8>) -> Result<(), AllocError> {
    out.extend_from_slice(&[1, 0])?;
    out.extend_from_slice(&3600_i32.to_be_bytes())?;
    out.extend_from_slice(&[0, 0])?;
    out.extend_from_slice(&7200_i32.to_be_bytes())?;
    out.extend_from_slice(&[1, 4])?;
    out.extend_from_slice(b"CET\0CEST\0\n")
}
