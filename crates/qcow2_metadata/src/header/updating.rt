// Updates the header of an open image from another header of the same image.
ghost use Rattle.std.specs.Prelude.{◌≡◌, ◌↔◌, map, IsTrue, IsOk, OnOk, OnErr, IsOkUnless};
ghost use Rattle.std.specs.Option.{option_copied};
ghost use Rattle.qcow2_metadata.specs.Features.{seen_name};
ghost use Rattle.qcow2_metadata.specs.Updates.{SameTexts, with_places_of};

use super::Header;
use crate::features::FeatureName;
use imago_storage::Fault;
use qcow2_types::V2Header;

/// Returns true if both texts are equal, or both are `None`.
fn is_same_text(one: Option<&str>, other: Option<&str>) -> bool
    ensures { IsTrue result ↔ (option_copied one.entry ≡ option_copied other.entry) }
{
    one == other
}

/// Returns true if both names are equal and belong to the same feature bit.
fn is_same_name(one: &FeatureName, other: &FeatureName) -> bool
    ensures { IsTrue result ↔ (seen_name one.now ≡ seen_name other.now) }
{
    one.kind == other.kind && one.bit == other.bit && one.name.as_str() == other.name.as_str()
}

/// Returns true if both lists have the same names.
fn are_same_names(some: &[FeatureName], others: &[FeatureName]) -> bool
    ensures { IsTrue result ↔ (map seen_name some.now ≡ map seen_name others.now) }
{
    if some.len() != others.len() {
        return false;
    }
    for (i, name) in some.iter().enumerate() {
        if !is_same_name(name, &others[i]) {
            return false;
        }
    }
    true
}

impl Header {
    // Returns true if both headers have the same texts.
    fn has_same_texts(&self, other: &Header) -> bool
        ensures { IsTrue result ↔ SameTexts self.now other.now }
    {
        is_same_text(self.backing_filename(), other.backing_filename())
            && is_same_text(self.backing_format(), other.backing_format())
            && is_same_text(
                self.external_data_filename(),
                other.external_data_filename(),
            )
            && are_same_names(&self.feature_names, &other.feature_names)
    }

    /// Copies the fields that may change while an image is open from another header of the image. The file is not written.
    ///
    /// The fields are the size of the disk, the offset and number of entries of the L1 table, and the offset and number of
    /// clusters of the refcount table.
    ///
    /// # Errors
    ///
    /// - `Fault::Unsupported` if any other field or a text differs. Nothing changes.
    pub fn update(&mut self, new: &Header) -> Result<(), Fault>
        ensures allowed { IsOk result ↔ (with_places_of new.now self.old ≡ new.now) }
        ensures ok { OnOk result (self.new ≡ new.now) }
        ensures err { OnErr result (self.new ≡ self.old) }
        ensures fault { IsOkUnless result Fault.Unsupported }
    {
        let v2 = V2Header {
            size: new.v2.size,
            l1_size: new.v2.l1_size,
            l1_table_offset: new.v2.l1_table_offset,
            refcount_table_offset: new.v2.refcount_table_offset,
            refcount_table_clusters: new.v2.refcount_table_clusters,
            ..self.v2
        };
        if v2 != new.v2 || self.v3 != new.v3 || !self.has_same_texts(new) {
            return Err(Fault::Unsupported);
        }
        self.v2 = v2;
        Ok(())
    }
}
