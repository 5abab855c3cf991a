//! Where the tables of a file of accounts are, by its lines.

/// The key of an account's hash.
const HASH_KEY: &str = "nt_hash";

/// How many hex digits a hash has.
const HASH_DIGITS: usize = 32;

/// The bytes of a text from `begin` up to `end`.
#[derive(Clone, Copy, Debug, PartialEq, Eq)]
pub(crate) struct Span {
    pub(crate) begin: usize,
    pub(crate) end: usize,
}

/// Where a table is, and how many there are.
#[derive(Clone, Copy, Debug)]
pub(crate) struct Tables {
    /// From the header to the last line that is neither blank nor a comment, with a blank line above.
    pub(crate) found: Option<Span>,
    pub(crate) count: usize,
}

/// Whether a line is blank or a comment.
fn says_nothing(line: &str) -> bool {
    let text = line.trim();
    text.is_empty() || text.starts_with('#')
}

/// Whether a line is the header of a table of a list.
fn is_header(line: &str) -> bool {
    line.trim_start().starts_with("[[")
}

/// Where the line that begins at a place ends, with its line feed.
fn end_of(document: &str, begin: usize, line: &str) -> usize {
    let end = begin.saturating_add(line.len()).saturating_add(1);
    end.min(document.len())
}

/// A search for the table of a number.
#[derive(Drop)]
struct Search {
    /// The number, counted from 1.
    number: usize,
    tables: Tables,
    /// Where the line before begins, if that is blank.
    blank: Option<usize>,
}

impl Search {
    /// Takes the next line.
    fn take(&mut self, line: &str, span: Span) {
        if is_header(line) {
            self.tables.count = self.tables.count.saturating_add(1);
            if self.tables.count == self.number {
                let begin = self.blank.unwrap_or(span.begin);
                self.tables.found = Some(Span {
                    begin,
                    end: span.end,
                });
            }
        } else if self.tables.count == self.number && !says_nothing(line) {
            self.extend(span.end);
        }
        self.blank = if line.trim().is_empty() {
            Some(span.begin)
        } else {
            None
        };
    }

    /// Has the table end here.
    fn extend(&mut self, end: usize) {
        if let Some(found) = self.tables.found {
            self.tables.found = Some(Span {
                begin: found.begin,
                end,
            });
        }
    }
}

/// The lines of the table of a number, counted from 1, and how many tables there are.
pub(crate) fn tables_in(document: &str, number: usize) -> Tables {
    let mut search = Search {
        number,
        tables: Tables {
            found: None,
            count: 0,
        },
        blank: None,
    };
    let mut begin = 0usize;
    for line in document.split('\n') {
        let end = end_of(document, begin, line);
        search.take(line, Span { begin, end });
        begin = end;
    }
    search.tables
}

/// A key as it is written, without blanks and quotes around it.
fn bare(key: &str) -> &str {
    key.trim().trim_matches('"').trim_matches('\'')
}

/// Behind how many bytes of a line the digits of a hash begin, where the line has one.
fn digits_in(line: &str) -> Option<usize> {
    let (key, value) = line.split_once('=')?;
    if bare(key) != HASH_KEY {
        return None;
    }
    let digits = value
        .trim_start()
        .trim_start_matches('"')
        .trim_start_matches('\'');
    let hash = digits.as_bytes().get(..HASH_DIGITS)?;
    if hash.iter().all(|digit| digit.is_ascii_hexdigit()) {
        Some(line.len().saturating_sub(digits.len()))
    } else {
        None
    }
}

/// Where the digits of the hash are in a table.
pub(crate) fn hash_in(document: &str, table: Span) -> Option<Span> {
    let mut begin = 0usize;
    for line in document.split('\n') {
        let end = end_of(document, begin, line);
        if table.begin <= begin && end <= table.end {
            if let Some(front) = digits_in(line) {
                let begin = begin.saturating_add(front);
                let end = begin.saturating_add(HASH_DIGITS);
                return Some(Span { begin, end });
            }
        }
        begin = end;
    }
    None
}
