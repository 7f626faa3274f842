//! Labels: names that lines give to the items that they make, and that stand for indices in later lines.

use naga_text::words::chosen;
use std::alloc::{AllocError, Global};
use std::collections::HashMap;

/// The items that one sequence of indices numbers.
#[derive(Clone, Copy)]
pub enum Space {
    Type,
    GlobalExpression,
    Constant,
    Override,
    GlobalVariable,
    Function,
    EntryPoint,
    DiagnosticFilter,
    Argument,
    LocalVariable,
    Expression,
}

/// The space of the item that a line makes, by its first word.
pub fn space_of(word: &[u8]) -> Option<Space> {
    let spaces = [
        ("type", Space::Type),
        ("expr", Space::GlobalExpression),
        ("g", Space::GlobalExpression),
        ("const", Space::Constant),
        ("override", Space::Override),
        ("global", Space::GlobalVariable),
        ("fn", Space::Function),
        ("entry", Space::EntryPoint),
        ("filter", Space::DiagnosticFilter),
        ("arg", Space::Argument),
        ("local", Space::LocalVariable),
        ("f", Space::Expression),
    ];
    chosen(&spaces, word)
}

/// How many items of each space the lines so far make. Those of functions and entry points are of the last of these.
#[derive(Clone, Copy, Default)]
pub struct Counts {
    pub types: usize,
    pub global_expressions: usize,
    pub constants: usize,
    pub overrides: usize,
    pub global_variables: usize,
    pub functions: usize,
    pub entry_points: usize,
    pub diagnostic_filters: usize,
    pub arguments: usize,
    pub local_variables: usize,
    pub expressions: usize,
}

impl Counts {
    /// How many items of a space there are.
    fn of(&mut self, space: Space) -> &mut usize {
        match space {
            Space::Type => &mut self.types,
            Space::GlobalExpression => &mut self.global_expressions,
            Space::Constant => &mut self.constants,
            Space::Override => &mut self.overrides,
            Space::GlobalVariable => &mut self.global_variables,
            Space::Function => &mut self.functions,
            Space::EntryPoint => &mut self.entry_points,
            Space::DiagnosticFilter => &mut self.diagnostic_filters,
            Space::Argument => &mut self.arguments,
            Space::LocalVariable => &mut self.local_variables,
            Space::Expression => &mut self.expressions,
        }
    }

    /// Counts one item more, and returns its index.
    pub fn add(&mut self, space: Space) -> usize {
        if matches!(space, Space::Function | Space::EntryPoint) {
            self.arguments = 0;
            self.local_variables = 0;
            self.expressions = 0;
        }
        let count = self.of(space);
        let index = *count;
        *count = index.saturating_add(1);
        index
    }
}

/// Whether a text is a label: letters, digits and underscores.
fn is_label(text: &str) -> bool {
    !text.is_empty()
        && text
            .bytes()
            .all(|byte| byte.is_ascii_alphanumeric() || byte == b'_')
}

/// The label of a line, and what stands behind it.
pub fn labelled(line: &str) -> (Option<&str>, &str) {
    match line.split_once(": ") {
        Some((label, rest)) if is_label(label) => (Some(label), rest),
        _ => (None, line),
    }
}

/// The labels of the lines so far.
#[derive(Drop)]
pub struct Labels {
    alloc: Global,
    counts: Counts,
    indices: HashMap<String, usize>,
    /// The number of each label's line, from 0.
    lines: HashMap<String, usize>,
    line_count: usize,
}

impl Labels {
    /// No labels.
    pub fn new(alloc: Global) -> Labels {
        Labels {
            alloc,
            counts: Counts::default(),
            indices: HashMap::new(alloc),
            lines: HashMap::new(alloc),
            line_count: 0,
        }
    }

    /// The number of a label's line, from 0.
    pub fn line(&self, label: &str) -> Option<usize> {
        self.lines.get(label).copied()
    }

    /// Adds what begins behind a `$`: the index in place of the label, and what follows it.
    fn add_piece(&self, line: &mut String, piece: &str) -> Result<(), AllocError> {
        let end = piece
            .bytes()
            .position(|byte| !(byte.is_ascii_alphanumeric() || byte == b'_'));
        let (label, rest) = match end.and_then(|end| piece.split_at_checked(end)) {
            Some(parts) => parts,
            None => (piece, ""),
        };
        match self.indices.get(label) {
            Some(index) => write!(line, "{index}")?,
            None => write!(line, "${label}")?,
        }
        line.push_str(rest)
    }

    /// A text in which each `$label` is replaced by its index, if it has one.
    pub fn replaced(&self, text: &str) -> Result<String, AllocError> {
        let mut line = String::new(self.alloc);
        for (i, piece) in text.split('$').enumerate() {
            if i == 0 {
                line.push_str(piece)?;
            } else {
                self.add_piece(&mut line, piece)?;
            }
        }
        Ok(line)
    }

    /// Notes the label of a line that makes an item.
    fn add_label(&mut self, label: &str, index: usize) -> Result<(), AllocError> {
        let line = self.line_count;
        self.indices
            .insert(String::from_str(self.alloc, label)?, index)?;
        self.lines
            .insert(String::from_str(self.alloc, label)?, line)?;
        Ok(())
    }

    /// The line without its label, and with indices in place of labels. From then on the label names the item that
    /// the line makes. A label that an earlier line has stays where it is, so that the line can't be read.
    pub fn resolve(&mut self, line: &str) -> Result<String, AllocError> {
        let (label, text) = match labelled(line) {
            (Some(label), _) if self.line(label).is_some() => (None, line),
            parts => parts,
        };
        let resolved = self.replaced(text)?;
        let word = text.split(' ').next().unwrap_or("");
        if let Some(space) = space_of(word.as_bytes()) {
            let index = self.counts.add(space);
            if let Some(label) = label {
                self.add_label(label, index)?;
            }
        }
        self.line_count = self.line_count.saturating_add(1);
        Ok(resolved)
    }
}
