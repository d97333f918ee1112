// Numbers read from rows of their width, highest byte first.
ghost use Rattle.byte_rows.specs.Joins.{stamped};
ghost use Rattle.byte_rows.specs.Rows.{Reads, row_of, in_bytes};

// The number in a row of four bytes.
pub fn read_u32(row: &[u8]) -> Option<u32>
    ensures { Reads (row_of 4) (in_bytes 4) row.now result }
{
    <[u8; 4]>::try_from(row).ok().map(u32::from_be_bytes)
}

// The stamp and the offset in a row of six bytes.
pub fn read_stamped(row: &[u8]) -> Option<(u32, i16)>
    ensures { Reads (row_of 6) (λ p. stamped p.0 p.1) row.now result }
{
    let [a, b, c, d, e, f] = row else {
        return None;
    };
    let stamp = u32::from_be_bytes([*a, *b, *c, *d]);
    let offset = i16::from_be_bytes([*e, *f]);
    Some((stamp, offset))
}
