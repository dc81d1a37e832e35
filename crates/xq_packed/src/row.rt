//! One row among packed rows, read where it lies.
ghost use Rattle.std.specs.Prelude.{◌≡◌, ◌<◌, length};
ghost use Rattle.xq_trees.specs.Rows.{row_at};
ghost use Rattle.xq_packed.specs.Packed.{IsNumbered};

use crate::PackedRows;
use std::marker::Model;
use xq_trees::Kind;

/// A row among packed rows. Contracts see the row and the names of all of them.
#[derive(Drop)]
pub struct PackedRow<'a> {
    rows: &'a PackedRows,
    at: usize,
}

impl<'a> Model for PackedRow<'a> {
    ghost use Rattle.std.specs.Prelude.{◌<◌, length};
    ghost use Rattle.xq_packed.specs.Packed.{NamedRow, named_code};
    ghost use Rattle.xq_trees.specs.Rows.{row_at};

    ghost Value = { NamedRow };

    ghost coded = { named_code };

    ghost view = { λ p. record { row = row_at p.rows.now.rows p.at; names = p.rows.now.names } };

    ghost invariant = { λ p. p.at < length p.rows.now.rows };
}

impl<'a> PackedRow<'a> {
    /// The row at a place.
    #[inline]
    pub fn new(rows: &'a PackedRows, at: usize) -> PackedRow<'a>
        requires { at < length rows.now.rows }
        ensures row { result.row ≡ row_at rows.now.rows at }
        ensures names { result.names ≡ rows.now.names }
    {
        PackedRow { rows, at }
    }

    /// The number of nodes below it.
    #[inline]
    pub fn size(&self) -> u32
        ensures { result ≡ self.now.row.size }
    {
        self.rows.shape_at(self.at).size
    }

    /// Its level.
    #[inline]
    pub fn level(&self) -> u32
        ensures { result ≡ self.now.row.level }
    {
        u32::from(self.rows.shape_at(self.at).level)
    }

    /// Its kind.
    #[inline]
    pub fn kind(&self) -> Kind
        ensures { result ≡ self.now.row.label.kind }
    {
        self.rows.shape_at(self.at).kind
    }

    /// The number of its name.
    #[inline]
    pub fn name_number(&self) -> u32
        ensures { IsNumbered self.now.names result self.now.row.label.name }
    {
        self.rows.shape_at(self.at).name
    }

    /// Its name.
    #[inline]
    pub fn name(&self) -> &'a str
        ensures { result.now ≡ self.now.row.label.name }
    {
        self.rows.name_at(self.at)
    }

    /// Its value.
    #[inline]
    pub fn value(&self) -> &'a str
        ensures { result.now ≡ self.now.row.label.value }
    {
        self.rows.value_at(self.at)
    }
}
