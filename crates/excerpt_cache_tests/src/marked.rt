//! Rows that any bytes are, behind an exclamation mark.
use excerpt_cache::RowCodec;
use gb_text::{Bytes, Memory};
use std::alloc::Global;

/// Some bytes.
#[derive(Drop)]
pub struct Marked {
    pub bytes: Bytes,
}

impl RowCodec for Marked {
    ghost use Rattle.excerpt_cache_tests.specs.Marks.{marked, marked_keeps_law};

    ghost codec = { marked };

    ghost law = { marked_keeps_law };

    fn write(&self, alloc: Global) -> Result<Bytes, Memory> {
        let mut text = Vec::new(alloc);
        text.push(b'!')?;
        text.extend_from_slice(self.bytes.as_slice())?;
        Ok(Bytes::from_vec(text))
    }

    fn read(alloc: Global, text: &[u8]) -> Result<Option<Self>, Memory> {
        match text {
            [b'!', rest @ ..] => Ok(Some(Marked {
                bytes: Bytes::from_slice(alloc, rest)?,
            })),
            _ => Ok(None),
        }
    }
}
