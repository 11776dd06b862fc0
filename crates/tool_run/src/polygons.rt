// The tool gdal_polygonize.
ghost use Rattle.std.specs.Prelude.{◌≡◌, ◌++◌, ◌+◌, ◌<◌, ◌≤◌, ◌^◌, All, Bool, Some, true, IfErr, IfOk, IsTrue, slice_get, IfSome, IsErrOf, OnErr, OnOk, length, map};
ghost use Rattle.std.specs.List.{zip};
ghost use Rattle.cell_base.specs.Raster.{Raster};
ghost use Rattle.cell_base.specs.Steps.{four};
ghost use Rattle.fixed_coord.specs.Shortest.{shortest};
ghost use Rattle.region_label.specs.Labelling.{IsLabelling};
ghost use Rattle.ring_faces.specs.Faces.{AreJoinedBySides, ArePolygonsOf, FitsGrid};
ghost use Rattle.ogr_csv.specs.Rows.{line_of};
ghost use Rattle.tool_outcome.specs.Outcome.{CanBeDone, Does, LeavesPart};
ghost use Rattle.tool_outcome.specs.Polygonize.{header_row, paths_of, row_of, value_of};
ghost use Rattle.tool_outcome.specs.Status.{IsDecided, status_of};
ghost use Rattle.tool_run.specs.Causes.{HasCauses, IsToolFault};
ghost use Rattle.tool_run.specs.Inner.Rows.{AreComponents, AreRowsOver, AreTraced, polygon_at};
ghost use Rattle.tool_run.specs.Inner.Layer.{HasRow, HasShapeText, layer_left, part_shape, parts_shape, rows_left};
ghost use Rattle.wkt_text.specs.Spelling.{list_text, polygon_text, wkt};
ghost use Rattle.rv_outside.specs.Files.{Becomes, with_file};
ghost use Rattle.rv_outside.specs.Folder.{OnlyWrites};
ghost use Rattle.tool_run.specs.Inner.Steps.{IsOverFrame, IsPartWritten, IsWriteFault};

use crate::corner_texts::CornerTexts;
use crate::grid_file::read_source;
use crate::pieces::{Pieces, write_text};
use crate::shape_text::write_polygon;
use asc_grid::Asc;
use cell_base::{Cell, Grid, Mask};
use edge_trace::EdgeTable;
use geo_transform::Frame;
use ogr_csv::RowsText;
use region_label::{Regions, label};
use region_parts::Parts;
use ring_faces::Faces;
use rv_outside::Folder;
use std::alloc::{AllocError, Global};
use tool_outcome::{Fault, Status};
use tool_words::{Job, PolygonizeJob};

// The components that have a row each: the value of each, and, where cells meet at corners too, its parts under side steps.
#[derive(Drop)]
struct Components {
    values: Vec<i64>,
    parts: Option<Parts>,
}

// The components of a grid with their values, and the polygons of all components under side steps.
#[derive(Drop)]
struct Layer {
    frame: Frame,
    values: Vec<i64>,
    parts: Option<Parts>,
    faces: Faces,
}

// The value of each component, by its first cell.
fn values_of(alloc: Global, cells: &Grid<i64>, regions: &Regions) -> Result<Vec<i64>, AllocError>
    requires { (connectivity : Bool) × (valid : Raster Bool) × IsLabelling connectivity cells.now valid regions.now }
    ensures values { IfOk result (λ values. values.items ≡ map (value_of cells.now) regions.now.firsts) }
    ensures few { length regions.now.firsts < 2 ^ 32 }
{
    let mut values = Vec::with_capacity(alloc, regions.count() as usize)?;
    'components: for k in 0..regions.count() {
        let (row, col) = regions.first(k);
        values.push(cells.get(row, col))?;
    }
    Ok(values)
}

// The components of a grid, by those under side steps.
fn components_of(
    alloc: Global,
    cells: &Grid<i64>,
    valid: &Mask,
    sides: &Regions,
    eight: bool,
) -> Result<Components, AllocError>
    requires { IsLabelling four cells.now valid.now sides.now }
    ensures { IfOk result (λ components. AreComponents eight cells.now valid.now sides.now components.values.items components.parts) }
{
    if !eight {
        let values = values_of(alloc, cells, sides)?;
        return Ok(Components {
            values,
            parts: None,
        });
    }
    let regions = label::<i64, true>(alloc, cells, valid)?;
    let values = values_of(alloc, cells, &regions)?;
    let parts = Parts::of(alloc, &regions, sides)?;
    Ok(Components {
        values,
        parts: Some(parts),
    })
}

// The polygons of components.
fn faces_of(alloc: Global, regions: &Regions) -> Result<Faces, AllocError>
    requires { AreJoinedBySides regions.now }
    ensures { IfOk result (ArePolygonsOf regions.now) }
{
    let edges = EdgeTable::build(alloc, regions)?;
    let faces = Faces::assemble(alloc, edges, regions)?;
    Ok(faces)
}

// The layer of a grid, whose cells are let go before its edges are traced.
fn layer_of(alloc: Global, asc: Asc<i64>, eight: bool) -> Result<Layer, AllocError>
    requires { IsOverFrame asc }
    ensures frame { IfOk result (λ layer. layer.frame ≡ asc.frame) }
    ensures rows { IfOk result (λ layer. AreRowsOver layer.frame layer.values.items layer.parts layer.faces) }
    ensures traced { IfOk result (λ layer. AreTraced eight asc layer.values.items layer.parts layer.faces) }
{
    let frame = asc.frame;
    let valid = Mask::valid_of(alloc, &asc.cells, asc.nodata)?;
    let sides = label::<i64, false>(alloc, &asc.cells, &valid)?;
    let components = components_of(alloc, &asc.cells, &valid, &sides, eight)?;
    drop(valid);
    drop(asc);
    let faces = faces_of(alloc, &sides)?;
    Ok(Layer {
        frame,
        values: components.values,
        parts: components.parts,
        faces,
    })
}

// Puts the text of a value in the place of another text.
fn put_number(value: i64, text: &mut Vec<u8>) -> Result<(), AllocError>
    ensures { OnOk result (text.new.items ≡ shortest value 0) }
{
    text.clear();
    <i64 as Cell>::write(value, text)?;
    Ok(())
}

// The two fields of a component's row, and the numbers of its parts. Each row of a piece takes the place of the one
// before, so that they seldom grow.
#[derive(Drop)]
struct Row {
    wkt: Vec<u8>,
    value: Vec<u8>,
    parts: Vec<u32>,
}

impl Row {
    fn new(alloc: Global) -> Row {
        Row {
            wkt: Vec::new(alloc),
            value: Vec::new(alloc),
            parts: Vec::new(alloc),
        }
    }
}

impl Layer {
    // Appends the polygon of this number.
    fn write_part(
        &self,
        j: u32,
        texts: &mut CornerTexts,
        out: &mut Vec<u8>,
    ) -> Result<(), AllocError>
        requires fit { All (FitsGrid self.now.frame.nrows self.now.frame.ncols) self.now.faces }
        requires j { j < length self.now.faces }
        requires frame { texts.old.frame ≡ self.now.frame }
        ensures text { OnOk result (out.new.items ≡ out.old.items ++ polygon_text (paths_of self.now.frame (polygon_at self.now.faces j))) }
        ensures frame { texts.new.frame ≡ texts.old.frame }
    {
        write_polygon(texts, self.faces.rings(j), out)
    }

    // Appends the polygons of parts.
    fn write_parts(
        &self,
        parts: &[u32],
        texts: &mut CornerTexts,
        out: &mut Vec<u8>,
    ) -> Result<(), AllocError>
        requires fit { All (FitsGrid self.now.frame.nrows self.now.frame.ncols) self.now.faces }
        requires some { 0 < length parts.now }
        requires parts { All (λ j. j < length self.now.faces) parts.now }
        requires frame { texts.old.frame ≡ self.now.frame }
        ensures text { OnOk result (out.new.items ≡ out.old.items
            ++ list_text polygon_text (map (λ j. paths_of self.now.frame (polygon_at self.now.faces j)) parts.now)) }
        ensures frame { texts.new.frame ≡ texts.old.frame }
    {
        let mut mark = b'(';
        'parts: for part in parts {
            out.push(mark)?;
            self.write_part(*part, texts, out)?;
            mark = b',';
        }
        out.push(b')')?;
        Ok(())
    }

    // Puts the text of a shape of one part in the place of another text.
    fn put_polygon(
        &self,
        j: u32,
        texts: &mut CornerTexts,
        text: &mut Vec<u8>,
    ) -> Result<(), AllocError>
        requires fit { All (FitsGrid self.now.frame.nrows self.now.frame.ncols) self.now.faces }
        requires j { j < length self.now.faces }
        requires frame { texts.old.frame ≡ self.now.frame }
        ensures text { OnOk result (text.new.items ≡ wkt (part_shape self.now j)) }
        ensures frame { texts.new.frame ≡ texts.old.frame }
    {
        text.clear();
        text.extend_from_slice(b"POLYGON ")?;
        self.write_part(j, texts, text)
    }

    // Puts the text of a shape of several parts in the place of another text.
    fn put_multipolygon(
        &self,
        parts: &[u32],
        texts: &mut CornerTexts,
        text: &mut Vec<u8>,
    ) -> Result<(), AllocError>
        requires fit { All (FitsGrid self.now.frame.nrows self.now.frame.ncols) self.now.faces }
        requires parts { All (λ j. j < length self.now.faces) parts.now }
        requires frame { texts.old.frame ≡ self.now.frame }
        ensures text { OnOk result (text.new.items ≡ wkt (parts_shape self.now parts.now)) }
        ensures frame { texts.new.frame ≡ texts.old.frame }
    {
        text.clear();
        text.extend_from_slice(b"MULTIPOLYGON ")?;
        if parts.is_empty() {
            text.extend_from_slice(b"EMPTY")?;
            return Ok(());
        }
        self.write_parts(parts, texts, text)
    }

    // Puts the text of the shape of a component in the place of another text, and the numbers of its parts in the place
    // of others.
    fn put_shape(
        &self,
        k: u32,
        texts: &mut CornerTexts,
        numbers: &mut Vec<u32>,
        text: &mut Vec<u8>,
    ) -> Result<(), AllocError>
        requires rows { AreRowsOver self.now.frame self.now.values.items self.now.parts self.now.faces }
        requires k { k < length self.now.values.items }
        requires frame { texts.old.frame ≡ self.now.frame }
        ensures text { OnOk result (HasShapeText self.now k text.new.items) }
        ensures frame { texts.new.frame ≡ texts.old.frame }
    {
        let Some(parts) = &self.parts else {
            return self.put_polygon(k, texts, text);
        };
        parts.list(k, numbers)?;
        if numbers.len() == 1 {
            return self.put_polygon(numbers[0], texts, text);
        }
        self.put_multipolygon(numbers, texts, text)
    }

    // Puts the fields of the row of a component in the place of another row's.
    fn put_row(&self, k: u32, texts: &mut CornerTexts, row: &mut Row) -> Result<(), AllocError>
        requires rows { AreRowsOver self.now.frame self.now.values.items self.now.parts self.now.faces }
        requires k { k < length self.now.values.items }
        requires frame { texts.old.frame ≡ self.now.frame }
        ensures row { OnOk result (HasRow self.now k row.new.wkt.items row.new.value.items) }
        ensures frame { texts.new.frame ≡ texts.old.frame }
    {
        self.put_shape(k, texts, &mut row.parts, &mut row.wkt)?;
        put_number(self.values[k as usize], &mut row.value)?;
        Ok(())
    }

    // Adds the row of a component.
    fn add_row(
        &self,
        k: u32,
        texts: &mut CornerTexts,
        row: &mut Row,
        rows: &mut RowsText,
    ) -> Result<(), AllocError>
        requires rows { AreRowsOver self.now.frame self.now.values.items self.now.parts self.now.faces }
        requires k { k < length self.now.values.items }
        requires frame { texts.old.frame ≡ self.now.frame }
        ensures rows { OnOk result (rows.old ++ rows_left self.now k ≡ rows.new ++ rows_left self.now (k + 1)) }
        ensures frame { texts.new.frame ≡ texts.old.frame }
    {
        self.put_row(k, texts, row)?;
        rows.add(&[row.wkt.as_slice(), row.value.as_slice()])?;
        Ok(())
    }

    // Adds the rows from one on until the text is long, and says where it stopped; at least one, where there is one.
    fn add_rows(
        &self,
        alloc: Global,
        from: u32,
        texts: &mut CornerTexts,
        rows: &mut RowsText,
    ) -> Result<u32, AllocError>
        requires rows { AreRowsOver self.now.frame self.now.values.items self.now.parts self.now.faces }
        requires from { from ≤ length self.now.values.items }
        requires frame { texts.old.frame ≡ self.now.frame }
        ensures further { IfOk result (λ next. (from < length self.now.values.items → from < next) × (from ≤ next) × (next ≤ length self.now.values.items)) }
        ensures rows { IfOk result (λ next. rows.old ++ rows_left self.now from ≡ rows.new ++ rows_left self.now next) }
        ensures frame { texts.new.frame ≡ texts.old.frame }
    {
        let mut row = Row::new(alloc);
        let mut k = from;
        'rows: while (k as usize) < self.values.len() {
            self.add_row(k, texts, &mut row, rows)?;
            k += 1;
            if rows.is_long() {
                return Ok(k);
            }
        }
        Ok(k)
    }
}

// The text of a layer, handed out in pieces of whole rows. The texts of its corners are kept over all of them.
#[derive(Drop)]
struct LayerText<'a> {
    alloc: Global,
    field: &'a str,
    layer: &'a Layer,
    texts: CornerTexts,
    has_header: bool,
    next: u32,
    ghost frame: { texts.frame ≡ layer.now.frame },
    ghost within: { next ≤ length layer.now.values.items },
    ghost rows: { AreRowsOver layer.now.frame layer.now.values.items layer.now.parts layer.now.faces },
}

impl<'a> Pieces for LayerText<'a> {
    ghost use Rattle.std.specs.Prelude.{◌+◌, ◌-◌, length, if◌then◌else◌};
    ghost use Rattle.tool_run.specs.Inner.Layer.{layer_left};

    ghost left = { λ text. layer_left text.field.now text.layer.now text.has_header text.next };

    ghost steps = { λ text. (if text.has_header then 1 else 0) + (length text.layer.now.values.items - text.next) };

    fn next(&mut self, piece: &mut Vec<u8>) -> Result<bool, AllocError> {
        if !self.has_header && self.next as usize >= self.layer.values.len() {
            piece.clear();
            return Ok(false);
        }
        let mut rows = RowsText::new(self.alloc);
        if self.has_header {
            rows.add(&[b"WKT", self.field.as_bytes()])?;
        }
        let next = self
            .layer
            .add_rows(self.alloc, self.next, &mut self.texts, &mut rows)?;
        *piece = rows.into_text()?;
        self.has_header = false;
        self.next = next;
        Ok(true)
    }
}

// Makes the destination and writes the text of a layer to it.
fn write_layer<F: Folder>(
    alloc: Global,
    folder: &mut F,
    name: &str,
    field: &str,
    layer: &Layer,
) -> Result<(), Fault>
    requires { AreRowsOver layer.now.frame layer.now.values.items layer.now.parts layer.now.faces }
    ensures ok { OnOk result (Becomes (F.state folder.old).files (F.state folder.new).files (with_file name.now (layer_left field.now layer.now true 0))) }
    ensures part { OnErr result (IsPartWritten (F.state folder.old).files (F.state folder.new).files name.now (layer_left field.now layer.now true 0)) }
    ensures kind { IfErr result IsWriteFault }
    ensures leaves { OnlyWrites (IsErrOf result Fault.WriteFault) (F.state folder.old) (F.state folder.new) }
{
    let texts = CornerTexts::of(alloc, layer.frame)?;
    let mut text = LayerText {
        alloc,
        field,
        layer,
        texts,
        has_header: true,
        next: 0,
    };
    write_text(alloc, folder, name, &mut text)
}

/// Writes the polygons of the source's components to a layer, with `-8` those of the parts of components whose cells meet at
/// corners too.
///
/// A fault leaves the files as they were, or, where the job would have been done, a first part of the
/// destination's bytes.
pub fn polygonize<F: Folder>(
    alloc: Global,
    job: &PolygonizeJob,
    folder: &mut F,
) -> Result<(), Fault>
    ensures outcome { IsDecided (status_of result) → IfSome (F.state folder.old).files
        (λ files. Does (Job.Polygonize job.now) files result (F.state folder.new).files) }
    ensures part { OnErr result (IfSome (F.state folder.old).files
        (λ files. LeavesPart (Job.Polygonize job.now) files (F.state folder.new).files)) }

    // Each fault of the folder has its cause, and no call that failed is passed over.
    ensures causes { HasCauses (status_of result) (F.state folder.old) (F.state folder.new) }
    ensures read_same { status_of result ≡ Status.ReadFault → (F.state folder.new).files ≡ (F.state folder.old).files }
    ensures kind { IfErr result IsToolFault }
    ensures write_done { status_of result ≡ Status.WriteFault → IfSome (F.state folder.old).files (CanBeDone (Job.Polygonize job.now)) }
{
    let asc = read_source(alloc, folder, job.source.as_str())?;
    let layer = layer_of(alloc, asc, job.eight)?;
    write_layer(alloc, folder, job.dest.as_str(), job.field.as_str(), &layer)?;
    Ok(())
}
