// Tests of the kinds on published vectors and at the edges of what is readable.
#![tactic(auto)]

#[cfg(test)]
mod tests {
    use keys::{Bobbin, Id, Path};
    use kinds::{Coded, Key, Refusal, Value};
    use std::cmp::Ordering;
    use std::test::Fail;
    use values::{Flags, Limit, Register};

    fn path(text: &[u8]) -> Result<Path, Fail> {
        Path::new(text).map_err(|_| Fail::new("no path"))
    }

    // Whether a text is refused, and then with 1.
    fn refused(text: &[u8]) -> bool {
        Path::new(text).is_err_and(|refusal| refusal.number() == 1)
    }

    #[test]
    fn fnv_published_vectors(rt: HostRuntime) -> Result<(), Fail> {
        let vectors: [(&[u8], u32); 11] = [
            (b"a", 0xE40C_292C),
            (b"b", 0xE70C_2DE5),
            (b"c", 0xE60C_2C52),
            (b"d", 0xE10C_2473),
            (b"e", 0xE00C_22E0),
            (b"f", 0xE30C_2799),
            (b"fo", 0x6222_E842),
            (b"foo", 0xA9F3_7ED7),
            (b"foob", 0x3F50_76EF),
            (b"fooba", 0x39AA_A18A),
            (b"foobar", 0xBF9C_F968),
        ];
        for (text, hash) in vectors {
            assert_eq!(rt; path(text)?.hash(), hash);
        }
        Ok(())
    }

    #[test]
    fn paths_at_the_edges(rt: HostRuntime) -> Result<(), Fail> {
        assert!(rt; refused(b""), "no byte");
        assert_eq!(rt; path(b"x")?.text().len(), 1);
        assert_eq!(rt; path(b"abcdefghijklmnopqrstuvwx")?.text().len(), 24);
        assert!(rt; refused(b"abcdefghijklmnopqrstuvwxy"), "25 bytes");
        assert!(rt; refused(b"a\x20"), "20");
        assert_eq!(rt; path(b"a\x21")?.text().len(), 2);
        assert_eq!(rt; path(b"a\x7E")?.text().len(), 2);
        assert!(rt; refused(b"a\x7F"), "7F");
        assert!(rt; refused(b"a\x00"), "00 is filling, and no byte of a path");
        Ok(())
    }

    #[test]
    fn paths_are_read_exactly(rt: HostRuntime) -> Result<(), Fail> {
        let mut row = [0u8; 24];
        path(b"r7.pb07")?.write(&mut row);
        assert!(rt; Path::read(&row).is_some());
        assert!(rt; Path::read(&row[0..23]).is_none(), "a short row");
        row[12] = b'x';
        assert!(rt; Path::read(&row).is_none(), "a byte after the filling");
        assert!(rt; Path::read(&[0; 24]).is_none(), "no text");
        Ok(())
    }

    #[test]
    fn orders(rt: HostRuntime) -> Result<(), Fail> {
        assert_eq!(rt; path(b"r1")?.order(&path(b"r10")?), Ordering::Less);
        assert_eq!(rt; path(b"r2")?.order(&path(b"r10")?), Ordering::Greater);
        assert!(rt; path(b"r2")?.same(&path(b"r2")?));
        assert_eq!(rt;
            Id { number: 256 }.order(&Id { number: 255 }),
            Ordering::Greater
        );
        assert_eq!(rt;
            Bobbin { number: 4 }.order(&Bobbin { number: 8 }),
            Ordering::Less
        );
        Ok(())
    }

    #[test]
    fn hashes(rt: HostRuntime) {
        assert_eq!(rt; Id { number: 1 }.hash(), 0x9E37_79B9);
        assert_eq!(rt;
            Id {
                number: 0xFFFF_FFFF,
            }
            .hash(),
            0x61C8_8647
        );
        assert_eq!(rt; Bobbin { number: 255 }.hash(), 3);
    }

    #[test]
    fn joins(rt: HostRuntime) {
        assert_eq!(rt;
            Limit { number: 12 }.join(&Limit { number: 15 }),
            Limit { number: 15 }
        );
        assert_eq!(rt;
            Flags { set: 0x11 }.join(&Flags { set: 0x12 }),
            Flags { set: 0x13 }
        );
        let first = Register {
            stamp: 7,
            offset: -3,
        };
        let later = first.join(&Register {
            stamp: 7,
            offset: 2,
        });
        assert_eq!(rt;
            later,
            Register {
                stamp: 7,
                offset: 2
            }
        );
        let latest = later.join(&Register {
            stamp: 8,
            offset: -9,
        });
        assert_eq!(rt;
            latest,
            Register {
                stamp: 8,
                offset: -9
            }
        );
    }

    #[test]
    fn bytes_of_a_register(rt: HostRuntime) -> Result<(), Fail> {
        let mut row = [0xEE; 8];
        Register {
            stamp: 7,
            offset: -3,
        }
        .write(&mut row);
        assert!(rt;
            row == [0, 0, 0, 7, 0xFF, 0xFD, 0xEE, 0xEE],
            "its bytes, and nothing else"
        );
        let back = Register::read(&row[..6]).ok_or_else(|| Fail::new("unreadable"))?;
        assert_eq!(rt; back.offset, -3);
        assert!(rt; Register::read(&row).is_none(), "too long");
        Ok(())
    }

    #[test]
    fn refusals_by_number(rt: HostRuntime) {
        assert_eq!(rt; Refusal::NotAPath.number(), 1);
        assert_eq!(rt; Refusal::Broken { at: 9 }.number(), 9);
        assert_eq!(rt; Refusal::Broken { at: 41 }.offset(), Some(41));
        assert_eq!(rt; Refusal::NoRoom.offset(), None);
        assert_eq!(rt; Refusal::BufferTooShort.number(), 12);
    }
}
