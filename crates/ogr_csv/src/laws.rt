// What holds of the texts of layers, whatever code reads and writes them.
ghost use Rattle.std.specs.Prelude.{◌≡◌, ◌∷◌, All, List, Option, length, ℕ};
ghost use Rattle.ogr_csv.specs.Layer.{Record, answers_in, layer_of};
ghost use Rattle.ogr_csv.specs.Rows.{HasNoMark, text_of_rows};

/// The features of the text of a header row and rows of as many fields are those of these rows, or the first refusal
/// among them. The header's first field begins with no byte order mark.
pub fn reads_what_is_written()
    ensures { (field : Option (List ℕ)) (header : Record) (rows : List Record)
        → HasNoMark header → All (λ row. length row ≡ length header) rows
        → layer_of field (text_of_rows (header ∷ rows)) ≡ answers_in field (header ∷ rows) }
{}
