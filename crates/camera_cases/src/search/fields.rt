//! The fields of a row, which single blanks part.

use std::alloc::{AllocError, Global};
use std::str::Split;

/// The next field of a row, `.` where there is none.
pub fn field<'a>(fields: &mut Split<'a, char>) -> &'a str {
    fields.next().unwrap_or(".")
}

/// The next field, one of numbers. One that is `.` is empty.
pub fn numbers(alloc: Global, fields: &mut Split<'_, char>) -> Result<Vec<u64>, AllocError> {
    let mut found = Vec::new(alloc);
    for part in field(fields).split(',') {
        if let Ok(number) = part.parse::<u64>() {
            found.push(number)?;
        }
    }
    Ok(found)
}
