//! Where a refused file is at fault.

use crate::held::LastRead;
use pg_out_faults::{Held, point_out, three_lines};
use pg_report::RefusalLine;
use std::alloc::{AllocError, Global};

/// Where a refusal points in the file that was read last, in lines; nothing where it is of no file, or nothing is held of it.
pub fn pointed(
    alloc: Global,
    refusal: &RefusalLine,
    read: &LastRead,
) -> Result<Option<Vec<u8>>, AllocError> {
    if !read.is_held {
        return Ok(None);
    }
    let held = Held {
        bytes: read.bytes.as_slice(),
        feeds: read.feeds,
        description: match &read.first {
            None => &[],
            Some(bytes) => bytes.as_slice(),
        },
    };
    match point_out(alloc, refusal, &held)? {
        None => Ok(None),
        Some(pointed) => Ok(Some(three_lines(alloc, read.name.as_str().as_bytes(), &pointed)?)),
    }
}
