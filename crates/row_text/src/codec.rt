//! Rows with their heads are rows of the cache.
use crate::read::read_excerpt;
use crate::row::HeadRow;
use crate::write::write_excerpt;
use excerpt_cache::RowCodec;
use gb_text::{Bytes, Memory};
use std::alloc::Global;

impl RowCodec for HeadRow {
    ghost use Rattle.row_text.specs.Codec.{row_codec, row_keeps_law};

    ghost codec = { row_codec };

    ghost law = { row_keeps_law };

    fn write(&self, alloc: Global) -> Result<Bytes, Memory> {
        write_excerpt(alloc, &self.head, &self.row)
    }

    fn read(alloc: Global, text: &[u8]) -> Result<Option<Self>, Memory> {
        read_excerpt(alloc, text)
    }
}
