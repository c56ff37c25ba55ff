// Calls the laws (functions without code whose contracts are theorems) of qcow2_metadata, to show that they can be called. A law with
// preconditions that no program meets says nothing.
use crate::answer::Answer;
use crate::limits::is_addressable;
use cases::Trouble;
use qcow2_metadata::{Header, laws};
use qcow2_types::HostCluster;

/// Calls each law.
pub fn laws(header: &Header) -> Result<Answer, Trouble> {
    let cluster = HostCluster(5);
    if !is_addressable(cluster, header.cluster_bits()) {
        return Err(Trouble::NoCall);
    }
    laws::counters_have_one_form();
    laws::copied_entries_are_decoded();
    laws::entered_places_are_named();
    laws::loaded_table_is_written_back();
    laws::mapped_cluster_is_decoded(header, cluster);
    laws::pointer_write_switches_the_header();
    laws::writing_twice_writes_the_same();
    laws::written_header_loads_again();
    laws::written_table_is_read_back();
    laws::zeroed_and_discarded_clusters_are_decoded();
    Ok(Answer::Done)
}
