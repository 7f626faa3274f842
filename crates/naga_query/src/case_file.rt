//! Files of cases: lines of modules, queries, and their results.

use crate::asker::{Case, add_answer};
use crate::session::Sessions;
use naga_module_text::labels::Labels;
use naga_module_text::settings::Settings;
use naga_valid::OutOfMemory;
use std::alloc::{AllocError, Global};

/// A file with its results as they are now, and what differs from the results that stood in it.
#[derive(Drop)]
pub struct Answered {
    /// The whole file.
    pub text: String,
    /// For each query with another result: its line's number, what stood there and what is right.
    pub differences: String,
    /// The number of queries whose results are right.
    pub passed: usize,
    /// The number of all other queries.
    pub failed: usize,
    /// The number of each line of a module that can't be read.
    pub unreadable: String,
}

impl Answered {
    /// Whether there is nothing that a query, a result or a case could be right or wrong about.
    pub fn asks_nothing(&self) -> bool {
        self.passed == 0 && self.failed == 0
    }
}

/// Whether a line is a part of a longer result.
fn is_result(line: &str) -> bool {
    line.starts_with("| ")
}

/// The query of a line, without a result. What stands in quotes is a part of the query.
fn query_in(line: &str) -> Option<&str> {
    let query = line.strip_prefix("? ")?;
    let (plain, _) = query.split_once(" -> ").unwrap_or((query, ""));
    if !plain.contains('"') {
        return Some(plain);
    }
    match query.rfind("\" -> ") {
        Some(end) => query.get(..end.saturating_add(1)),
        None => Some(query),
    }
}

/// Whether a line below a title is one of a module's.
fn is_of_module(line: &str) -> bool {
    !is_result(line) && !line.starts_with("? ")
}

/// Some of a file's lines, with line feeds between them, or none of its lines.
pub type Lines<'a> = Option<&'a str>;

/// The lines of a file before its first title, and the cases, without the mark of the first title.
pub fn head_and_cases(text: &str) -> (Lines, Option<&str>) {
    if text.is_empty() {
        return (None, None);
    }
    let lines = text.strip_suffix('\n').unwrap_or(text);
    if let Some(cases) = lines.strip_prefix("== ") {
        return (None, Some(cases));
    }
    match lines.split_once("\n== ") {
        Some((head, cases)) => (Some(head), Some(cases)),
        None => (Some(lines), None),
    }
}

/// The title of a case, and its lines below.
pub fn title_and_lines(case: &str) -> (&str, Lines) {
    match case.split_once('\n') {
        Some((title, lines)) => (title, Some(lines)),
        None => (case, None),
    }
}

/// A line without the carriage return before its line feed.
pub fn plain(line: &str) -> &str {
    line.strip_suffix('\r').unwrap_or(line)
}

/// Adds the lines of a module, with indices in place of labels.
fn add_lines(text: &mut String, labels: &mut Labels, lines: Lines) -> Result<(), AllocError> {
    let Some(lines) = lines else { return Ok(()) };
    for line in lines.split('\n') {
        let line = plain(line);
        if is_of_module(line) {
            text.push_str(labels.resolve(line)?.as_str())?;
            text.push('\n')?;
        }
    }
    Ok(())
}

/// The shared lines of a file and then the lines of a case, with indices in place of labels.
pub fn resolved(
    alloc: Global,
    labels: &mut Labels,
    shared: Lines,
    own: Lines,
) -> Result<String, AllocError> {
    let mut text = String::new(alloc);
    add_lines(&mut text, labels, shared)?;
    add_lines(&mut text, labels, own)?;
    Ok(text)
}

/// The case of its own lines, behind the shared ones.
fn case_of(sessions: &Sessions, shared: Lines, own: Lines) -> Result<Case, OutOfMemory> {
    let alloc = sessions.alloc;
    let mut labels = Labels::new(alloc);
    let text = resolved(alloc, &mut labels, shared, own)?;
    let draft = sessions.draft(text.as_str(), false)?;
    Ok(Case {
        text,
        labels,
        draft,
    })
}

/// The lines after the comments and empty lines at the head of a file.
pub fn without_head(lines: Lines) -> Lines {
    let lines = lines?;
    let mut first = 0usize;
    for line in lines.split('\n') {
        let after = first.saturating_add(line.len()).saturating_add(1);
        let line = plain(line);
        if !line.is_empty() && !line.starts_with('#') {
            return lines.get(first..);
        }
        first = after;
    }
    None
}

/// How many of the lines are a module's.
pub fn count_of_module(lines: Lines) -> usize {
    match lines {
        Some(lines) => lines
            .split('\n')
            .filter(|line| is_of_module(plain(line)))
            .count(),
        None => 0,
    }
}

/// How many line feeds stand before the lines that are left of others.
fn count_before(lines: Lines, left: Lines) -> usize {
    let all = lines.unwrap_or("");
    let end = all.len().saturating_sub(left.unwrap_or("").len());
    all.bytes().take(end).filter(|byte| *byte == b'\n').count()
}

/// Where one of a module's lines stands in its file, by its number among them, from 1. The first of all lines has the
/// number `first` in the file.
pub fn number_in_file(lines: Lines, first: usize, number: usize) -> usize {
    let mut left = number;
    let mut at = first;
    for line in lines.unwrap_or("").split('\n') {
        if is_of_module(plain(line)) {
            left = left.saturating_sub(1);
        }
        if left == 0 {
            return at;
        }
        at = at.saturating_add(1);
    }
    at
}

/// Whether one of the lines is a query.
fn asks(lines: Lines) -> bool {
    match lines {
        Some(lines) => lines
            .split('\n')
            .any(|line| query_in(plain(line)).is_some()),
        None => false,
    }
}

/// A query with its result: behind it if that is one line, else in the lines below.
fn with_result(alloc: Global, query: &str, answer: &str) -> Result<String, AllocError> {
    if let Some(line) = answer.strip_suffix('\n')
        && !line.contains('\n')
    {
        return format!(in alloc; "? {query} -> {line}\n");
    }
    let mut text = format!(in alloc; "? {query}\n")?;
    for line in answer.lines() {
        write!(text, "| {line}\n")?;
    }
    Ok(text)
}

/// A query whose result is not read yet, or only in part.
#[derive(Drop)]
struct Asked {
    /// The line of the query and the lines of its result so far, each ended by a line feed.
    stood: String,
    /// The number of the query's line, from 1.
    number: usize,
}

impl Asked {
    /// The query of a line.
    fn new(alloc: Global, line: &str, number: usize) -> Result<Asked, AllocError> {
        let mut asked = Asked {
            stood: String::new(alloc),
            number,
        };
        asked.add_line(line)?;
        Ok(asked)
    }

    /// Adds a line that stands there.
    fn add_line(&mut self, line: &str) -> Result<(), AllocError> {
        self.stood.push_str(line)?;
        self.stood.push('\n')
    }

    /// The query itself.
    fn query(&self) -> &str {
        let stood = self.stood.as_str();
        let (line, _) = stood.split_once('\n').unwrap_or((stood, ""));
        query_in(line).unwrap_or(line)
    }
}

/// A file of which a part is answered.
#[derive(Drop)]
struct Answering {
    sessions: Sessions,
    answered: Answered,
    /// The number of the next line, from 1.
    line: usize,
    /// Whether the line before is a result without a query, which was noted.
    is_noted: bool,
}

impl Answering {
    /// Writes a line back.
    fn add_line(&mut self, line: &str) -> Result<(), AllocError> {
        self.answered.text.push_str(line)?;
        self.answered.text.push('\n')
    }

    /// Answers a query, and notes that it has another result than the one that stood there.
    fn add_answered(&mut self, case: &Case, asked: &Asked) -> Result<(), OutOfMemory> {
        let alloc = self.sessions.alloc;
        let mut answer = String::new(alloc);
        add_answer(&mut self.sessions, &mut answer, asked.query(), case)?;
        let now = with_result(alloc, asked.query(), answer.as_str())?;
        if now == asked.stood {
            self.answered.passed = self.answered.passed.saturating_add(1);
        } else {
            self.answered.failed = self.answered.failed.saturating_add(1);
            self.add_difference(asked, now.as_str())?;
        }
        self.answered.text.push_str(now.as_str())?;
        Ok(())
    }

    /// Notes that a query has another result than the one that stood there.
    fn add_difference(&mut self, asked: &Asked, now: &str) -> Result<(), AllocError> {
        let line = asked.number;
        let stood = asked.stood.as_str();
        let differences = &mut self.answered.differences;
        write!(
            differences,
            "line {line}, where this stood:\n{stood}and this is right:\n{now}"
        )
    }

    /// Notes a case or a result to which no query belongs.
    fn add_unasked(&mut self, what: &str) -> Result<(), AllocError> {
        let line = self.line;
        self.answered.failed = self.answered.failed.saturating_add(1);
        let differences = &mut self.answered.differences;
        write!(differences, "line {line}: {what} without a query\n")
    }

    /// Writes a line of a result back, to which no query belongs.
    fn add_unasked_result(&mut self, line: &str) -> Result<(), AllocError> {
        if !self.is_noted {
            self.add_unasked("a result")?;
            self.is_noted = true;
        }
        self.add_line(line)
    }

    /// Writes back a line that is not a part of a result, unless it is a query, which is returned.
    fn add_other(&mut self, line: &str) -> Result<Option<Asked>, AllocError> {
        self.is_noted = false;
        if query_in(line).is_none() {
            self.add_line(line)?;
            return Ok(None);
        }
        Ok(Some(Asked::new(self.sessions.alloc, line, self.line)?))
    }

    /// Adds the next line to what is asked, and returns what is asked now.
    fn add_next(
        &mut self,
        case: &Case,
        asked: Option<Asked>,
        line: &str,
    ) -> Result<Option<Asked>, OutOfMemory> {
        match asked {
            Some(mut asked) if is_result(line) => {
                asked.add_line(line)?;
                Ok(Some(asked))
            }
            Some(asked) => {
                self.add_answered(case, &asked)?;
                Ok(self.add_other(line)?)
            }
            None if is_result(line) => {
                self.add_unasked_result(line)?;
                Ok(None)
            }
            None => Ok(self.add_other(line)?),
        }
    }

    /// Answers the queries of lines about a case, and writes the other lines back.
    fn add_queries(&mut self, case: &Case, lines: Lines) -> Result<(), OutOfMemory> {
        let Some(lines) = lines else { return Ok(()) };
        let mut asked = None;
        for line in lines.split('\n') {
            asked = self.add_next(case, asked, plain(line))?;
            self.line = self.line.saturating_add(1);
        }
        match asked {
            Some(asked) => self.add_answered(case, &asked),
            None => Ok(()),
        }
    }

    /// Notes a line that can't be read.
    fn add_unreadable(&mut self, line: usize) -> Result<(), AllocError> {
        write!(self.answered.unreadable, "line {line} can't be read\n")
    }

    /// Answers the queries before the first title about the shared lines alone.
    fn add_head(&mut self, head: Lines, shared: Lines) -> Result<(), OutOfMemory> {
        let case = case_of(&self.sessions, shared, None)?;
        if let Some(number) = case.draft.unreadable {
            let first = self.line.saturating_add(count_before(head, shared));
            self.add_unreadable(number_in_file(shared, first, number))?;
        }
        self.add_queries(&case, head)
    }

    /// Answers the queries of a case about its own lines, behind the shared ones.
    fn add_case(&mut self, shared: Lines, own: Lines) -> Result<(), OutOfMemory> {
        let case = case_of(&self.sessions, shared, own)?;
        if let Some(number) = case.draft.unreadable {
            let own_number = number.saturating_sub(count_of_module(shared));
            // A shared line was noted before the first title.
            if own_number > 0 {
                self.add_unreadable(number_in_file(own, self.line, own_number))?;
            }
        }
        self.add_queries(&case, own)
    }

    /// Writes the title of a case back, and notes if no line of the case is a query.
    fn add_title(&mut self, title: &str, own: Lines) -> Result<(), AllocError> {
        if !asks(own) {
            self.add_unasked("a case")?;
        }
        self.answered.text.push_str("== ")?;
        self.add_line(plain(title))?;
        self.line = self.line.saturating_add(1);
        self.is_noted = false;
        Ok(())
    }

    /// Answers the queries of one case after another. The lines before the first belong to each, except
    /// comments and empty lines at the head of the file.
    fn add_sections(&mut self, text: &str) -> Result<(), OutOfMemory> {
        let (head, cases) = head_and_cases(text);
        let shared = without_head(head);
        self.add_head(head, shared)?;
        let Some(cases) = cases else { return Ok(()) };
        for case in cases.split("\n== ") {
            let (title, own) = title_and_lines(case);
            self.add_title(title, own)?;
            self.add_case(shared, own)?;
        }
        Ok(())
    }
}

/// Answers all queries of a file, by the settings of its cases and of a host.
///
/// # Errors
///
/// `AllocError` if a request for memory was refused.
pub fn answer_file(alloc: Global, text: &str, host: Settings) -> Result<Answered, AllocError> {
    let mut answering = Answering {
        sessions: Sessions::new(alloc, host),
        answered: Answered {
            text: String::new(alloc),
            differences: String::new(alloc),
            passed: 0,
            failed: 0,
            unreadable: String::new(alloc),
        },
        line: 1,
        is_noted: false,
    };
    match answering.add_sections(text) {
        Ok(()) => Ok(answering.answered),
        Err(OutOfMemory) => Err(AllocError),
    }
}
