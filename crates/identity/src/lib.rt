//! Identities: what the text of a version says, how it is written, and the person of a chain of versions.
#![tactic(auto)]

mod advancing;
mod agree_laws;
mod chain;
mod commit;
mod fault;
mod known;
mod laws;
mod making;
mod making_laws;
mod member;
mod version;
mod version_laws;

pub use advancing::{AdvanceFault, Step, advance};
pub use agree_laws::agreeing_stores_have_the_same_chain;
pub use chain::{Person, read_chain, read_last, versions};
pub use fault::IdentityFault;
pub use laws::{
    chains_are_determined, valid_chains_have_no_fault, valid_chains_show_a_person,
    valid_chains_stay_valid, version_ids_are_ids, versions_by_members, versions_name_persons,
    written_versions_read_back,
};
pub use making::{Made, VersionPlan, new_version, plan_version};
pub use making_laws::{new_versions_come_after_their_needs, new_versions_extend_their_chains};
pub use version::{Version, id_of_version, version_text};
pub use version_laws::{
    keys_anywhere_refuse, keys_are_elements_of_pub_keys, versions_are_within_bounds,
    wrong_ids_report_what_was_found,
};
