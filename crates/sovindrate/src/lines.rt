// What a line of a sheet says. A word that begins with # starts a comment.

#[derive(Clone, Copy)]
pub enum Line<'a> {
    Blank,
    Sheet {
        key_kind: &'a str,
        value_kind: &'a str,
    },
    Setting {
        key: &'a str,
        value: &'a str,
    },
    Other,
}

pub fn line_of(text: &str) -> Line<'_> {
    let mut words = text
        .split_whitespace()
        .take_while(|word| !word.starts_with('#'));
    let Some(first) = words.next() else {
        return Line::Blank;
    };
    let Some(second) = words.next() else {
        return Line::Other;
    };
    let Some(third) = words.next() else {
        return Line::Setting {
            key: first,
            value: second,
        };
    };
    if first == "sheet" && words.next().is_none() {
        Line::Sheet {
            key_kind: second,
            value_kind: third,
        }
    } else {
        Line::Other
    }
}
