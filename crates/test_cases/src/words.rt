// A line's words, with one blank between them, each taken in its turn as what it stands for.
use crate::calls::Call;
use crate::printed::BEFORE;
use crate::supplier::Supplier;
use anyhow::{Context, Result};
use hex::FromHex;
use std::alloc::Global;
use std::str::Split;

#[derive(Drop)]
pub(crate) struct Words<'a> {
    pub(crate) alloc: Global,
    rest: Split<'a, char>,
}

impl<'a> Words<'a> {
    pub(crate) fn of(alloc: Global, line: &'a str) -> Words<'a> {
        Words {
            alloc,
            rest: line.split(' '),
        }
    }

    pub(crate) fn word(&mut self) -> Result<&'a str> {
        self.rest.next().context("a word is missing")
    }

    pub(crate) fn number(&mut self) -> Result<usize> {
        Ok(self.word()?.parse()?)
    }

    // Bytes as hex digits; - is no bytes.
    pub(crate) fn bytes(&mut self) -> Result<Vec<u8>> {
        match self.word()? {
            "-" => Ok(Vec::new(self.alloc)),
            digits => Ok(hex::decode(self.alloc, digits)?),
        }
    }

    // Sixteen bytes as hex digits.
    pub(crate) fn block(&mut self) -> Result<[u8; 16]> {
        Ok(<[u8; 16]>::from_hex(self.word()?)?)
    }

    // A room of so many bytes.
    pub(crate) fn room(&mut self) -> Result<Vec<u8>> {
        let size = self.number()?;
        Ok(vec![in self.alloc; BEFORE; size]?)
    }

    // The words A P M; a star after M is a master.
    pub(crate) fn agreement(&mut self) -> Result<settings::Agreement> {
        let algorithm = self.number()?;
        let padding = self.number()?;
        let m = self.word()?;
        let starred = m.strip_suffix('*');
        Ok(settings::Agreement {
            algorithm,
            padding,
            m: starred.unwrap_or(m).parse()?,
            master: starred.is_some(),
        })
    }

    // The words A P M KEYS.
    pub(crate) fn supplier(&mut self) -> Result<Supplier> {
        Ok(Supplier {
            agreement: self.agreement()?,
            keys: self.bytes()?,
        })
    }

    // The words A P M KEYS MESSAGE BITS.
    pub(crate) fn call(&mut self) -> Result<Call> {
        Ok(Call {
            supplier: self.supplier()?,
            message: self.bytes()?,
            bits: self.number()?,
        })
    }
}
