//! Single lines: of weights, and of counts.

ghost use Rattle.std.specs.Prelude.{◌≡◌, ◌+◌, ◌≤◌, ◌++◌, length, OnOk};
ghost use Rattle.lattice_core.specs.Weights.{weighted, weighted_all};
ghost use Rattle.palp_input.specs.Grammar.{listed};
ghost use Rattle.palp_print.specs.Lists.{echo as echo_of, item_echo as item_echo_of, body_line as body_line_of, nef_line as nef_line_of};
ghost use Rattle.palp_print.specs.Lists.{numbers_text, pair_line as pair_line_of};
ghost use Rattle.batyrev.specs.declared.line.HodgeLine.TheVariants as HodgeLine;
ghost use Rattle.arrayvec.specs.ArrayVec.{array_vec_len};
ghost use Rattle.std.specs.Fmt.{signed_decimal};
ghost use Rattle.palp_print.specs.Lists.{weights_line, closing as closing_of, sweep_line as sweep_line_of};
ghost use Rattle.palp_print.specs.Pages.{Appends};

use crate::line::{Line, fixed, put, put_number};
use crate::page::Page;
use crate::rows::{put_before_spaces, put_behind, put_number as put_wide};
use crate::titles::{CountTitle, count_words};
use batyrev::HodgeLine;
use lattice_core::{NoMemory, WeightSystem};
use palp_input::Item;

/// Appends the numbers of weight systems, each with a space behind it.
fn put_systems(text: &mut Vec<u8>, systems: &[WeightSystem]) -> Result<(), NoMemory>
    ensures { OnOk result (text.new.items ≡ text.old.items ++ echo_of (weighted_all systems.now)) }
{
    for system in systems {
        put_before_spaces(text, &[system.degree])?;
        put_before_spaces(text, &system.weights)?;
    }
    Ok(())
}

/// Appends a weight system.
fn put_weights(text: &mut Vec<u8>, system: &WeightSystem) -> Result<(), NoMemory>
    ensures { OnOk result (text.new.items ≡ text.old.items ++ weights_line (weighted system.now)) }
{
    put_wide(text, system.degree)?;
    put_behind(text, b' ', system.weights.as_slice())?;
    text.push(b'\n')?;
    Ok(())
}

/// The line of the numbers of lattice points, vertices and facets.
fn body(points: u64, vertices: u64, facets: u64) -> Line
    ensures { result.items ≡ body_line_of points vertices facets }
{
    let mut line = fixed(b"M:");
    put_number(&mut line, points);
    put(&mut line, b" ");
    put_number(&mut line, vertices);
    put(&mut line, b" F:");
    put_number(&mut line, facets);
    put(&mut line, b"\n");
    line
}

/// Appends two numbers, each with a text in front of it, for which there is room.
fn put_two(line: &mut Line, text: &[u8], number: i128, next_text: &[u8], next: i128)
    requires room { array_vec_len line.old ≤ 300 }
    requires text { length text.now ≤ 10 }
    requires next_text { length next_text.now ≤ 10 }
    ensures bytes { line.new.items ≡ line.old.items ++ (text.now ++ (signed_decimal number ++ (next_text.now ++ signed_decimal next))) }
    ensures len { array_vec_len line.new ≤ array_vec_len line.old + 100 }
{
    put(line, text);
    put_number(line, number);
    put(line, next_text);
    put_number(line, next);
}

/// Appends the numbers of dimension 4, for which there is room.
fn put_threefold(line: &mut Line, h11: i128, h21: i128, euler: i128)
    requires { array_vec_len line.old ≤ 200 }
    ensures bytes { line.new.items ≡ line.old.items ++ numbers_text (HodgeLine.Three h11 h21 euler) }
    ensures len { array_vec_len line.new ≤ array_vec_len line.old + 250 }
{
    put_two(line, b" H:", h11, b",", h21);
    put(line, b" [");
    put_number(line, euler);
    put(line, b"]");
}

/// Appends those of dimension 5, for which there is room.
fn put_fourfold(line: &mut Line, h11: i128, h21: i128, h31: i128, euler: i128)
    requires { array_vec_len line.old ≤ 200 }
    ensures bytes { line.new.items ≡ line.old.items ++ numbers_text (HodgeLine.Four h11 h21 h31 euler) }
    ensures len { array_vec_len line.new ≤ array_vec_len line.old + 250 }
{
    put_two(line, b" H:", h11, b",", h21);
    put_two(line, b",", h31, b" [", euler);
    put(line, b"]");
}

/// Appends Batyrev's numbers, for which there is room.
fn put_numbers(line: &mut Line, numbers: &HodgeLine)
    requires { array_vec_len line.old ≤ 200 }
    ensures bytes { line.new.items ≡ line.old.items ++ numbers_text numbers.now }
    ensures len { array_vec_len line.new ≤ array_vec_len line.old + 250 }
{
    match numbers {
        HodgeLine::None => {}
        HodgeLine::Pic { pic, cor } => put_two(line, b" Pic:", *pic, b" Cor:", *cor),
        HodgeLine::Three { h11, h21, euler } => put_threefold(line, *h11, *h21, *euler),
        HodgeLine::Four {
            h11,
            h21,
            h31,
            euler,
        } => put_fourfold(line, *h11, *h21, *h31, *euler),
    }
}

/// The line of the numbers of points and vertices of a reflexive polytope and its dual, with Batyrev's numbers.
fn pair(m_points: u64, m_vertices: u64, n_points: u64, n_vertices: u64, tail: &HodgeLine) -> Line
    ensures { result.items ≡ pair_line_of m_points m_vertices n_points n_vertices tail.now }
{
    let mut line = fixed(b"M:");
    put_number(&mut line, m_points);
    put(&mut line, b" ");
    put_number(&mut line, m_vertices);
    put(&mut line, b" N:");
    put_number(&mut line, n_points);
    put(&mut line, b" ");
    put_number(&mut line, n_vertices);
    put_numbers(&mut line, tail);
    put(&mut line, b"\n");
    line
}

/// The line of the numbers of points and vertices of a polytope and its dual, and a codimension.
fn nef(m_points: u64, m_vertices: u64, n_points: u64, n_vertices: u64, codim: u32) -> Line
    ensures { result.items ≡ nef_line_of m_points m_vertices n_points n_vertices codim }
{
    let mut line = fixed(b"M:");
    put_number(&mut line, m_points);
    put(&mut line, b" ");
    put_number(&mut line, m_vertices);
    put(&mut line, b" N:");
    put_number(&mut line, n_points);
    put(&mut line, b" ");
    put_number(&mut line, n_vertices);
    put(&mut line, b" codim=");
    put_number(&mut line, codim);
    put(&mut line, b"\n");
    line
}

/// The summary of a range of weight systems.
fn sweep(systems: u64, reflexive: u64, m_points: u128, n_points: u128) -> Line
    ensures { result.items ≡ sweep_line_of systems reflexive m_points n_points }
{
    let mut line = fixed(b"systems:");
    put_number(&mut line, systems);
    put(&mut line, b" reflexive:");
    put_number(&mut line, reflexive);
    put(&mut line, b" M:");
    put_number(&mut line, m_points);
    put(&mut line, b" N:");
    put_number(&mut line, n_points);
    put(&mut line, b"\n");
    line
}

/// The line of a count.
fn count_line(title: CountTitle, count: u64) -> Line
    ensures { result.items ≡ closing_of title count }
{
    let mut line = fixed(count_words(title));
    put_number(&mut line, count);
    put(&mut line, b"\n");
    line
}

impl Page {
    /// Appends the numbers of a weight line, each with a space behind it: what stands in front of a weight item's first line.
    pub fn echo(&mut self, systems: &[WeightSystem]) -> Result<(), NoMemory>
        ensures { Appends (echo_of (weighted_all systems.now)) self.old self.new result }
    {
        self.draft.clear();
        put_systems(&mut self.draft, systems)?;
        self.text.extend_from_slice(&self.draft)?;
        Ok(())
    }

    /// Appends what stands in front of an item's first line: of a weight line its numbers, and of a matrix nothing.
    pub fn item_echo(&mut self, item: &Item) -> Result<(), NoMemory>
        ensures { Appends (item_echo_of (listed item.now)) self.old self.new result }
    {
        match item {
            Item::Weights(systems) => self.echo(systems),
            Item::Points(_) => Ok(()),
        }
    }

    /// Appends the line of the numbers of lattice points, vertices and facets, `M:points vertices F:facets`.
    pub fn body_line(&mut self, points: u64, vertices: u64, facets: u64) -> Result<(), NoMemory>
        ensures { Appends (body_line_of points vertices facets) self.old self.new result }
    {
        self.append(body(points, vertices, facets).as_slice())
    }

    /// Appends the line of the numbers of lattice points and vertices of a reflexive polytope and of its dual, with Batyrev's numbers,
    /// `M:points vertices N:points vertices` and ` Pic:pic Cor:cor`, ` H:h11,h21 [euler]`, ` H:h11,h21,h31 [euler]` or nothing.
    pub fn pair_line(
        &mut self,
        m_points: u64,
        m_vertices: u64,
        n_points: u64,
        n_vertices: u64,
        tail: &HodgeLine,
    ) -> Result<(), NoMemory>
        ensures { Appends (pair_line_of m_points m_vertices n_points n_vertices tail.now) self.old self.new result }
    {
        self.append(pair(m_points, m_vertices, n_points, n_vertices, tail).as_slice())
    }

    /// Appends the line of the numbers of lattice points and vertices of a polytope and of its dual, and a codimension,
    /// `M:points vertices N:points vertices codim=r`.
    pub fn nef_line(
        &mut self,
        m_points: u64,
        m_vertices: u64,
        n_points: u64,
        n_vertices: u64,
        codim: u32,
    ) -> Result<(), NoMemory>
        ensures { Appends (nef_line_of m_points m_vertices n_points n_vertices codim) self.old self.new result }
    {
        self.append(nef(m_points, m_vertices, n_points, n_vertices, codim).as_slice())
    }

    /// Appends the line of a weight system: its degree and its weights.
    pub fn weights(&mut self, system: &WeightSystem) -> Result<(), NoMemory>
        ensures { Appends (weights_line (weighted system.now)) self.old self.new result }
    {
        self.draft.clear();
        put_weights(&mut self.draft, system)?;
        self.text.extend_from_slice(&self.draft)?;
        Ok(())
    }

    /// Appends the line of a count, as `#nef:count`.
    pub fn closing(&mut self, title: CountTitle, count: u64) -> Result<(), NoMemory>
        ensures { Appends (closing_of title count) self.old self.new result }
    {
        self.append(count_line(title, count).as_slice())
    }

    /// Appends the summary of a range of weight systems, `systems:a reflexive:b M:c N:d`.
    pub fn sweep_line(
        &mut self,
        systems: u64,
        reflexive: u64,
        m_points: u128,
        n_points: u128,
    ) -> Result<(), NoMemory>
        ensures { Appends (sweep_line_of systems reflexive m_points n_points) self.old self.new result }
    {
        self.append(sweep(systems, reflexive, m_points, n_points).as_slice())
    }
}
