//! A case of a case file.

use crate::CaseFault;
use mail_base::Bytes;

/// A key and its value, with its escapes replaced.
#[derive(Drop)]
pub struct Entry {
    pub key: Bytes,
    pub value: Bytes,
}

impl Entry {
    /// The first word of the key, which says what the entry is for.
    pub fn role(&self) -> &[u8] {
        let key = self.key.as_slice();
        key.split(|byte| *byte == b' ').next().unwrap_or(b"")
    }

    /// What stands behind the first word of the key, as a path.
    pub fn about(&self) -> &[u8] {
        let key = self.key.as_slice();
        match key.iter().position(|byte| *byte == b' ') {
            Some(blank) => key.get(blank.saturating_add(1)..).unwrap_or(b""),
            None => b"",
        }
    }
}

/// A named case: inputs and what is expected, in the order of its lines.
#[derive(Drop)]
pub struct Case {
    /// The line on which it begins, from 1.
    pub line: usize,
    pub entries: Vec<Entry>,
}

impl Case {
    /// The first value of a key.
    pub fn find(&self, key: &[u8]) -> Option<&[u8]> {
        for entry in self.entries.as_slice() {
            if entry.key.as_slice() == key {
                return Some(entry.value.as_slice());
            }
        }
        None
    }

    /// The first value of a key that the case has to have.
    pub fn need(&self, key: &[u8]) -> Result<&[u8], CaseFault> {
        self.find(key).ok_or(CaseFault::NoInput)
    }

    /// The number that is the first value of a key, if there is one.
    pub fn number(&self, key: &[u8]) -> Result<Option<u64>, CaseFault> {
        match self.find(key) {
            Some(value) => Ok(Some(read_number(value)?)),
            None => Ok(None),
        }
    }

    /// The name.
    pub fn name(&self) -> &[u8] {
        self.find(b"case").unwrap_or(b"")
    }
}

/// A number of decimal digits.
pub fn read_number(value: &[u8]) -> Result<u64, CaseFault> {
    let Ok(digits) = str::from_utf8(value) else {
        return Err(CaseFault::BadInput);
    };
    match digits.parse::<u64>() {
        Ok(number) => Ok(number),
        Err(_) => Err(CaseFault::BadInput),
    }
}
