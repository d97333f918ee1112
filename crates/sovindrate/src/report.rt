// The sheets of a text, each united and written in key order, and then an account of the whole.
ghost use Rattle.std.specs.Prelude.{◌≤◌, length, IfOk};

use super::fault::Fault;
use super::lines::{Line, line_of};
use super::sheet::Setting;
use super::spelled::{KEY_KINDS, Misspelt, Spelled, VALUE_KINDS};
use super::unite::unite;
use keys::{Bobbin, Id, Path};
use kinds::{Coded, Key, Refusal, Value};
use std::alloc::Global;
use values::{Flags, Limit, Register};

// A line that a kind refused.
#[derive(Clone, Copy)]
struct RefusedLine {
    refusal: Refusal,
    line: usize,
}

// What is written so far, and the account of it.
#[derive(Drop)]
struct Account {
    heap: Global,
    out: String,
    settings: usize,
    joins: usize,
    refused: Vec<RefusedLine>,
}

impl Account {
    fn new(heap: Global) -> Account {
        Account {
            heap,
            out: String::new(heap),
            settings: 0,
            joins: 0,
            refused: Vec::new(heap),
        }
    }

    // A key or a value from its word, or nothing where its kind refuses it, which is noted in the account.
    fn parse<T: Spelled>(&mut self, line: usize, word: &str) -> Result<Option<T>, Fault> {
        match T::parse(word) {
            Ok(x) => Ok(Some(x)),
            Err(Misspelt::Refused(refusal)) => {
                self.refused.push(RefusedLine { refusal, line })?;
                Ok(None)
            }
            Err(Misspelt::Malformed) => Err(Fault::Line {
                number: line,
                expected: T::EXPECTED,
            }),
        }
    }

    // One line KEY VALUE, united with its sheet.
    fn add_setting<K: Key + Spelled, V: Value + Spelled>(
        &mut self,
        settings: &mut Vec<Setting<K, V>>,
        line: usize,
        key: &str,
        value: &str,
    ) -> Result<(), Fault> {
        let key: Option<K> = self.parse(line, key)?;
        let value: Option<V> = self.parse(line, value)?;
        if let (Some(key), Some(value)) = (key, value)
            && unite(settings, key, value)?
        {
            self.joins = self.joins.saturating_add(1);
        }
        Ok(())
    }

    // The bytes of a key or a value, in hexadecimal.
    fn write_bytes<C: Coded>(&mut self, x: &C) -> Result<(), Fault> {
        let mut row = vec![in self.heap; 0; C::WIDTH]?;
        x.write(row.as_mut_slice());
        let digits = hex::encode_upper(self.heap, row.as_slice())?;
        self.out.push_str(digits.as_str())?;
        Ok(())
    }

    // A setting: key, value, hash and bytes.
    fn write_setting<K: Key + Spelled, V: Value + Spelled>(
        &mut self,
        setting: &Setting<K, V>,
    ) -> Result<(), Fault> {
        let key = setting.key;
        let value = setting.value;
        let hash = key.hash();
        write!(self.out, "{key} {value} hash {hash:08X} key ")?;
        self.write_bytes(&key)?;
        write!(self.out, " value ")?;
        self.write_bytes(&value)?;
        writeln!(self.out)?;
        Ok(())
    }

    // Unites the lines of a sheet, of which the first has the number, and writes what came of it; says how many they are
    // before the next sheet begins.
    fn unite_sheet<K: Key + Spelled, V: Value + Spelled>(
        &mut self,
        first: usize,
        lines: &[&str],
    ) -> Result<usize, Fault>
        ensures { IfOk result (λ n. n ≤ length lines.now) }
    {
        let mut settings: Vec<Setting<K, V>> = Vec::new(self.heap);
        let mut many = lines.len();
        for (i, line) in lines.iter().enumerate() {
            let number = first.saturating_add(i);
            match line_of(line) {
                Line::Blank => {}
                Line::Setting { key, value } => {
                    self.add_setting(&mut settings, number, key, value)?;
                }
                Line::Sheet { .. } => {
                    many = i;
                    break;
                }
                Line::Other => {
                    return Err(Fault::Line {
                        number,
                        expected: "KEY VALUE, or sheet KEYKIND VALUEKIND",
                    });
                }
            }
        }
        let count = settings.len();
        self.settings = self.settings.saturating_add(count);
        writeln!(self.out, ": {count} settings")?;
        for setting in settings.iter() {
            self.write_setting(setting)?;
        }
        Ok(many)
    }

    fn unite_by_value<K: Key + Spelled>(
        &mut self,
        value_kind: &str,
        number: usize,
        lines: &[&str],
    ) -> Result<usize, Fault>
        ensures { IfOk result (λ n. n ≤ length lines.now) }
    {
        let next = number.saturating_add(1);
        match value_kind {
            "limit" => self.unite_sheet::<K, Limit>(next, lines),
            "flags" => self.unite_sheet::<K, Flags>(next, lines),
            "register" => self.unite_sheet::<K, Register>(next, lines),
            _ => Err(Fault::Line {
                number,
                expected: VALUE_KINDS,
            }),
        }
    }

    fn unite_by_kinds(
        &mut self,
        key_kind: &str,
        value_kind: &str,
        number: usize,
        lines: &[&str],
    ) -> Result<usize, Fault>
        ensures { IfOk result (λ n. n ≤ length lines.now) }
    {
        write!(self.out, "sheet {key_kind} {value_kind}")?;
        match key_kind {
            "path" => self.unite_by_value::<Path>(value_kind, number, lines),
            "id" => self.unite_by_value::<Id>(value_kind, number, lines),
            "bobbin" => self.unite_by_value::<Bobbin>(value_kind, number, lines),
            _ => Err(Fault::Line {
                number,
                expected: KEY_KINDS,
            }),
        }
    }

    // A sheet after the other, from the first on, which comes after so many lines.
    fn unite_all(&mut self, lines: &[&str], before: usize) -> Result<(), Fault> {
        let mut rest = lines.get(before..).unwrap_or_default();
        while let [first, after @ ..] = rest {
            let number = lines.len().saturating_sub(after.len());
            rest = match line_of(first) {
                Line::Blank => after,
                Line::Sheet {
                    key_kind,
                    value_kind,
                } => {
                    let many = self.unite_by_kinds(key_kind, value_kind, number, after)?;
                    after.get(many..).unwrap_or_default()
                }
                Line::Setting { .. } | Line::Other => {
                    return Err(Fault::Line {
                        number,
                        expected: "sheet KEYKIND VALUEKIND",
                    });
                }
            };
        }
        Ok(())
    }

    fn write_account(&mut self, lines: usize) -> Result<(), Fault> {
        writeln!(self.out, "account")?;
        writeln!(self.out, "lines {lines}")?;
        writeln!(self.out, "settings {}", self.settings)?;
        writeln!(self.out, "joins {}", self.joins)?;
        for refused in self.refused.iter() {
            let number = refused.refusal.number();
            let line = refused.line;
            writeln!(self.out, "refused {number} at line {line}")?;
        }
        Ok(())
    }
}

// What the program prints of the lines of a text of sheets, of which so many that have no words come before the first.
pub fn report(heap: Global, lines: &[&str], before: usize) -> Result<String, Fault> {
    let mut account = Account::new(heap);
    account.unite_all(lines, before)?;
    account.write_account(lines.len())?;
    Ok(account.out)
}
