// The three header values that the meaning of an entry depends on.
ghost use Rattle.std.specs.Prelude.{◌≡◌, ◌≤◌};
ghost use Rattle.qcow2_types.specs.Header.{Shaped, layout_of};

use crate::Header;
use std::marker::Model;

/// The header values that the meaning of an entry depends on: the cluster bits, the version, and whether the guest's data is in an external
/// data file.
#[derive(Clone, Copy)]
pub struct TableLayout {
    cluster_bits: u32,
    version: u32,
    external_data: bool,
}

impl Model for TableLayout {
    ghost use Rattle.qcow2_types.specs.Words.{Layout};

    ghost Value = { Layout };

    ghost use Rattle.qcow2_metadata.specs.LayoutView.{seen_layout, layout_inside, IsLayout};

    ghost view = { seen_layout };

    ghost inverse = { layout_inside };

    ghost invariant = { IsLayout };
}

impl TableLayout {
    /// Returns the layout of an image with this header.
    pub fn of_header(header: &Header) -> TableLayout
        ensures value { result ≡ layout_of header.now.fields }
        ensures shaped { Shaped header.now.fields }
    {
        TableLayout {
            cluster_bits: header.cluster_bits(),
            version: header.version(),
            external_data: header.external_data_file(),
        }
    }

    /// Returns the base-2 logarithm of the cluster size in bytes: 9 to 21.
    pub fn cluster_bits(self) -> u32
        ensures value { result ≡ self.cluster_bits }
        ensures bounds { (9 ≤ result) × (result ≤ 21) }
    {
        self.cluster_bits
    }

    /// Returns the version of the format.
    pub fn version(self) -> u32
        ensures { result ≡ self.version }
    {
        self.version
    }

    /// Returns true if the guest's data is in an external data file.
    pub fn external_data(self) -> bool
        ensures { result ≡ self.external_data }
    {
        self.external_data
    }
}
