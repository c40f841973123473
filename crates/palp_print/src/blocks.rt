//! The blocks of points and facets.

ghost use Rattle.std.specs.Prelude.{◌≡◌, ◌^◌, ◌<◌, ◌≤◌, [], ◌∷◌, ◌++◌, length, nat_abs, codes, OnOk};
ghost use Rattle.std.specs.Fmt.{decimal, signed_decimal};
ghost use Rattle.std.specs.List.{All, flat_map, range_with_len};
ghost use Rattle.lattice_theory.specs.Affine.{value};
ghost use Rattle.lattice_theory.specs.Size.{absolute_sum};
ghost use Rattle.lattice_theory.specs.Vector.{entry, HaveDimension};
ghost use Rattle.lattice_core.specs.Dimensions.{dimension_of};
ghost use Rattle.lattice_core.specs.PointLists.{ArePoints};
ghost use Rattle.palp_print.specs.Texts.{behind_spaces, spaced};
ghost use Rattle.palp_print.specs.Blocks.{columns as columns_of, dual_rows as dual_rows_of, equations as equations_of, pairing as pairing_of, incidence as incidence_of};
ghost use Rattle.palp_print.specs.Blocks.{column_line, normal_line, equation_line, value_line, face_counts, marks, mark, mark_line, AreFunctions, ArePaired, AreInReach, function_dimension};
ghost use Rattle.palp_print.specs.Pages.{Appends};

use crate::line::{Line, fixed, heading, put, put_function, titled};
use crate::page::Page;
use crate::rows::{put_behind, put_number, put_separated};
use crate::titles::{Title, dual_title, title_words};
use lattice_core::{Functional, NoMemory, Point};

/// Appends the i-th entries of points, each with a space in front of it.
fn put_entries(text: &mut Vec<u8>, points: &[Point], i: usize) -> Result<(), NoMemory>
    requires { All (λ p. i < length p) points.now }
    ensures { OnOk result (text.new.items ≡ text.old.items ++ behind_spaces (λ p. signed_decimal (entry p i)) points.now) }
{
    for point in points {
        text.push(b' ')?;
        put_number(text, point.entry(i))?;
    }
    Ok(())
}

/// Appends the i-th entries of points, with a space between each two.
fn put_column(text: &mut Vec<u8>, points: &[Point], i: usize) -> Result<(), NoMemory>
    requires { All (λ p. i < length p) points.now }
    ensures { OnOk result (text.new.items ≡ text.old.items ++ spaced (λ p. signed_decimal (entry p i)) points.now) }
{
    if let [first, rest @ ..] = points {
        put_number(text, first.entry(i))?;
        put_entries(text, rest, i)?;
    }
    Ok(())
}

/// Appends the line of the i-th entries.
fn put_column_line(text: &mut Vec<u8>, points: &[Point], i: usize) -> Result<(), NoMemory>
    requires { All (λ p. i < length p) points.now }
    ensures { OnOk result (text.new.items ≡ text.old.items ++ column_line points.now i) }
{
    put_column(text, points, i)?;
    text.push(b'\n')?;
    Ok(())
}

/// Appends a line for each of the first n coordinates.
fn put_column_lines(text: &mut Vec<u8>, points: &[Point], n: usize) -> Result<(), NoMemory>
    requires { HaveDimension n points.now }
    ensures { OnOk result (text.new.items ≡ text.old.items ++ flat_map (column_line points.now) (range_with_len 0 n)) }
{
    for i in 0..n {
        put_column_line(text, points, i)?;
    }
    Ok(())
}

/// The dimension of points, of which there is at least one.
fn dimension(points: &[Point]) -> usize
    requires { ArePoints points.now }
    ensures { result ≡ dimension_of points.now }
{
    points[0].dim()
}

/// Appends points as columns.
fn put_columns(text: &mut Vec<u8>, title: Title, points: &[Point]) -> Result<(), NoMemory>
    requires { ArePoints points.now }
    ensures { OnOk result (text.new.items ≡ text.old.items ++ columns_of title points.now) }
{
    let n = dimension(points);
    text.extend_from_slice(heading(n, points.len(), title_words(title)).as_slice())?;
    put_column_lines(text, points, n)
}

/// The dimension of functions, of which there is at least one.
fn normal_dimension(functions: &[Functional]) -> usize
    requires { AreFunctions functions.now }
    ensures { result ≡ function_dimension functions.now }
{
    functions[0].dim()
}

/// Appends the normals of facets, each as a line.
fn put_normals(text: &mut Vec<u8>, facets: &[Functional]) -> Result<(), NoMemory>
    ensures { OnOk result (text.new.items ≡ text.old.items ++ flat_map normal_line facets.now) }
{
    for facet in facets {
        put_separated(text, b' ', facet.normal())?;
        text.push(b'\n')?;
    }
    Ok(())
}

/// Appends the normals of facets as the vertices of a dual.
fn put_dual_rows(text: &mut Vec<u8>, facets: &[Functional]) -> Result<(), NoMemory>
    requires { AreFunctions facets.now }
    ensures { OnOk result (text.new.items ≡ text.old.items ++ dual_rows_of facets.now) }
{
    let n = normal_dimension(facets);
    text.extend_from_slice(heading(facets.len(), n, dual_title()).as_slice())?;
    put_normals(text, facets)
}

/// The line of a facet's normal and constant.
fn equation(facet: &Functional) -> Line
    ensures { result.items ≡ equation_line facet.now }
{
    let mut line = fixed(b"");
    put_function(&mut line, facet);
    put(&mut line, b"\n");
    line
}

/// Appends the normals and constants of facets, each as a line.
fn put_equation_lines(text: &mut Vec<u8>, facets: &[Functional]) -> Result<(), NoMemory>
    ensures { OnOk result (text.new.items ≡ text.old.items ++ flat_map equation_line facets.now) }
{
    for facet in facets {
        text.extend_from_slice(equation(facet).as_slice())?;
    }
    Ok(())
}

/// Appends facets as equations.
fn put_equations(text: &mut Vec<u8>, facets: &[Functional]) -> Result<(), NoMemory>
    requires { AreFunctions facets.now }
    ensures { OnOk result (text.new.items ≡ text.old.items ++ equations_of facets.now) }
{
    let n = normal_dimension(facets);
    text.extend_from_slice(titled(b"Equations", facets.len(), n).as_slice())?;
    put_equation_lines(text, facets)
}

/// Appends the values of a facet at vertices, each with a space in front of it.
fn put_values(text: &mut Vec<u8>, facet: &Functional, vertices: &[Point]) -> Result<(), NoMemory>
    requires { All (AreInReach facet.now) vertices.now }
    ensures { OnOk result (text.new.items ≡ text.old.items ++ behind_spaces (λ p. signed_decimal (value facet.now p)) vertices.now) }
{
    for vertex in vertices {
        text.push(b' ')?;
        put_number(text, facet.at(vertex))?;
    }
    Ok(())
}

/// Appends the values of a facet at vertices, with a space between each two.
fn put_value_row(text: &mut Vec<u8>, facet: &Functional, vertices: &[Point]) -> Result<(), NoMemory>
    requires { All (AreInReach facet.now) vertices.now }
    ensures { OnOk result (text.new.items ≡ text.old.items ++ spaced (λ p. signed_decimal (value facet.now p)) vertices.now) }
{
    if let [first, rest @ ..] = vertices {
        put_number(text, facet.at(first))?;
        put_values(text, facet, rest)?;
    }
    Ok(())
}

/// Appends the line of a facet's values at vertices.
fn put_value_line(
    text: &mut Vec<u8>,
    facet: &Functional,
    vertices: &[Point],
) -> Result<(), NoMemory>
    requires { All (AreInReach facet.now) vertices.now }
    ensures { OnOk result (text.new.items ≡ text.old.items ++ value_line vertices.now facet.now) }
{
    put_value_row(text, facet, vertices)?;
    text.push(b'\n')?;
    Ok(())
}

/// Appends a line for each facet with its values at vertices.
fn put_value_lines(
    text: &mut Vec<u8>,
    facets: &[Functional],
    vertices: &[Point],
) -> Result<(), NoMemory>
    requires { All (λ f. All (AreInReach f) vertices.now) facets.now }
    ensures { OnOk result (text.new.items ≡ text.old.items ++ flat_map (value_line vertices.now) facets.now) }
{
    for facet in facets {
        put_value_line(text, facet, vertices)?;
    }
    Ok(())
}

/// Appends the values of facets at vertices.
fn put_pairing(
    text: &mut Vec<u8>,
    facets: &[Functional],
    vertices: &[Point],
) -> Result<(), NoMemory>
    requires { ArePaired facets.now vertices.now }
    ensures { OnOk result (text.new.items ≡ text.old.items ++ pairing_of facets.now vertices.now) }
{
    text.extend_from_slice(titled(b"Pairing", facets.len(), vertices.len()).as_slice())?;
    put_value_lines(text, facets, vertices)
}

/// The mark of a facet at a vertex.
fn mark_of(facet: &Functional, vertex: &Point) -> u8
    requires { AreInReach facet.now vertex.now }
    ensures { result ∷ [] ≡ mark (value facet.now vertex.now) }
{
    if facet.at(vertex) == 0 { b'1' } else { b'0' }
}

/// Appends the line of the vertices that lie on a facet.
fn put_mark_line(text: &mut Vec<u8>, facet: &Functional, vertices: &[Point]) -> Result<(), NoMemory>
    requires { All (AreInReach facet.now) vertices.now }
    ensures { OnOk result (text.new.items ≡ text.old.items ++ mark_line vertices.now facet.now) }
{
    for vertex in vertices {
        text.push(mark_of(facet, vertex))?;
    }
    text.push(b'\n')?;
    Ok(())
}

/// Appends a line for each facet with the vertices that lie on it.
fn put_mark_lines(
    text: &mut Vec<u8>,
    facets: &[Functional],
    vertices: &[Point],
) -> Result<(), NoMemory>
    requires { All (λ f. All (AreInReach f) vertices.now) facets.now }
    ensures { OnOk result (text.new.items ≡ text.old.items ++ flat_map (mark_line vertices.now) facets.now) }
{
    for facet in facets {
        put_mark_line(text, facet, vertices)?;
    }
    Ok(())
}

/// Appends which vertices lie on which facets.
fn put_marks(text: &mut Vec<u8>, facets: &[Functional], vertices: &[Point]) -> Result<(), NoMemory>
    requires { ArePaired facets.now vertices.now }
    ensures { OnOk result (text.new.items ≡ text.old.items ++ marks facets.now vertices.now) }
{
    text.extend_from_slice(titled(b"Incidence", facets.len(), vertices.len()).as_slice())?;
    put_mark_lines(text, facets, vertices)
}

/// Appends numbers of faces.
fn put_face_counts(text: &mut Vec<u8>, counts: &[u32]) -> Result<(), NoMemory>
    ensures { OnOk result (text.new.items ≡ text.old.items ++ face_counts counts.now) }
{
    text.extend_from_slice(b"Faces:")?;
    put_behind(text, b' ', counts)?;
    text.push(b'\n')?;
    Ok(())
}

impl Page {
    /// Appends points as columns: a line of their dimension n, their number and the title, then n lines, of which the i-th has the i-th
    /// entries of all points. There is a point, and all have one dimension. On `NoMemory` the page stays as it was; so it does of every call
    /// on a page. Points as columns follow PALP's manual (arXiv:1205.4147, section 3).
    pub fn columns(&mut self, title: Title, points: &[Point]) -> Result<(), NoMemory>
        requires { ArePoints points.now }
        ensures { Appends (columns_of title points.now) self.old self.new result }
    {
        self.draft.clear();
        put_columns(&mut self.draft, title, points)?;
        self.text.extend_from_slice(&self.draft)?;
        Ok(())
    }

    /// Appends the facets of a reflexive polytope as the vertices of its dual: a line of their number, their dimension and a title, then
    /// for each facet its normal. There is a facet, and all have one dimension.
    pub fn dual_rows(&mut self, facets: &[Functional]) -> Result<(), NoMemory>
        requires { AreFunctions facets.now }
        ensures { Appends (dual_rows_of facets.now) self.old self.new result }
    {
        self.draft.clear();
        put_dual_rows(&mut self.draft, facets)?;
        self.text.extend_from_slice(&self.draft)?;
        Ok(())
    }

    /// Appends facets as equations: a line of a title, their number and their dimension, then for each facet its normal and its constant.
    /// There is a facet, and all have one dimension.
    pub fn equations(&mut self, facets: &[Functional]) -> Result<(), NoMemory>
        requires { AreFunctions facets.now }
        ensures { Appends (equations_of facets.now) self.old self.new result }
    {
        self.draft.clear();
        put_equations(&mut self.draft, facets)?;
        self.text.extend_from_slice(&self.draft)?;
        Ok(())
    }

    /// Appends the values of facets at vertices: a line of a title, the number of facets and that of vertices, then for each facet its values
    /// at all vertices. There is a facet and a vertex, all have one dimension, constants are at most 2^100 in absolute value, and the absolute
    /// values of a vertex's entries sum to at most 2^33.
    pub fn pairing(&mut self, facets: &[Functional], vertices: &[Point]) -> Result<(), NoMemory>
        requires { ArePaired facets.now vertices.now }
        ensures { Appends (pairing_of facets.now vertices.now) self.old self.new result }
    {
        self.draft.clear();
        put_pairing(&mut self.draft, facets, vertices)?;
        self.text.extend_from_slice(&self.draft)?;
        Ok(())
    }

    /// Appends the numbers of faces, then which vertices lie on which facets: a line of a title, the number of facets and that of vertices, and
    /// for each facet a digit for each vertex, 1 where it lies on the facet, and otherwise 0. Facets and vertices are as for `pairing`.
    pub fn incidence(
        &mut self,
        counts: &[u32],
        facets: &[Functional],
        vertices: &[Point],
    ) -> Result<(), NoMemory>
        requires { ArePaired facets.now vertices.now }
        ensures { Appends (incidence_of counts.now facets.now vertices.now) self.old self.new result }
    {
        self.draft.clear();
        put_face_counts(&mut self.draft, counts)?;
        put_marks(&mut self.draft, facets, vertices)?;
        self.text.extend_from_slice(&self.draft)?;
        Ok(())
    }
}
