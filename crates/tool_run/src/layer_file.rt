// Layers in files.
ghost use Rattle.std.specs.Prelude.{◌≡◌, IfErr, IfSome, IsErrOf, option_map};
ghost use Rattle.ogr_csv.specs.Layer.{layer_of};
ghost use Rattle.rv_outside.specs.Folder.{OnlyReads};
ghost use Rattle.tool_outcome.specs.Features.{features_in, layer_in};
ghost use Rattle.tool_outcome.specs.Status.{IsDecided, status_of};
ghost use Rattle.tool_run.specs.Inner.LayerFile.{HasFeatures, IsLayerFault, ReadsFeatures};

use ogr_csv::{Feature, LayerFault, LayerReader};
use rv_outside::{Folder, read_whole};
use std::alloc::Global;
use tool_outcome::{Fault, Role};

// All features of a layer text, or the first refusal among its records.
fn features_of(alloc: Global, bytes: &[u8], field: Option<&str>) -> Result<Vec<Feature>, LayerFault>
    ensures { ReadsFeatures (features_in (layer_of (option_map (λ name. name.now) field.entry) bytes.now)) result }
{
    let mut reader = LayerReader::open(alloc, bytes, field)?;
    let mut features = Vec::new(alloc);
    'records: while let Some(feature) = reader.next(alloc)? {
        if features.push(feature).is_err() {
            return Err(LayerFault::NoMemory);
        }
    }
    Ok(features)
}

/// The features of a source, whose text is let go again.
pub(crate) fn read_layer<F: Folder>(
    alloc: Global,
    folder: &mut F,
    name: &str,
    field: Option<&str>,
) -> Result<Vec<Feature>, Fault>
    ensures source { IsDecided (status_of result) → IfSome (F.state folder.old).files
        (λ files. HasFeatures (layer_in (option_map (λ name. name.now) field.entry) (files name.now)) result) }
    ensures leaves { OnlyReads (IsErrOf result (Fault.ReadFault Role.Source)) (IsErrOf result (Fault.Missing Role.Source))
        (F.state folder.old) (F.state folder.new) }
    ensures kind { IfErr result IsLayerFault }
{
    let text = read_whole(alloc, folder, name)?;
    let features = features_of(alloc, &text, field)?;
    Ok(features)
}
