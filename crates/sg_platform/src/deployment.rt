//! Reads deployments.
ghost use Rattle.std.specs.Prelude.{◌≡◌, ◌≢◌, Err, IfOk, Some};
ghost use Rattle.std.specs.Result.{result_map_both};
ghost use Rattle.sg_platform_rows.specs.Deployment.{IsDeployedOn, IsDeployment};
ghost use Rattle.sg_platform.specs.BrokenRules.{deployment_rule};
ghost use Rattle.sg_platform.specs.DeploymentOf.{deployment_of, names_on, deployment_rows};
ghost use Rattle.sg_platform.specs.PlatformOf.{tree_by};
ghost use Rattle.sg_platform.specs.declared.deployment.DeploymentFault.TheVariants.{Memory};
ghost use Rattle.sg_toml_keys.specs.Tables.{deployment_tables};
ghost use Rattle.sg_toml_tree.specs.kept.NamesView.{names_view};
ghost use Rattle.toml.specs.View.{table_view};

use crate::build::read_table;
use crate::platform::GREATEST_TEXT;
use sg_platform_rows::{ActorRow, Deployment, MutexRow, PlatformText, SemaphoreRow, hosts_by_name};
use sg_toml_keys::DEPLOYMENT;
use sg_toml_rules::first_fault;
use sg_toml_tree::{Fault, Kind, Names, NoTree, Place, deployment_names, read_tree};
use std::alloc::Global;
use thiserror::Error;

/// Why a text is no deployment.
#[derive(Debug, Drop, Error)]
pub enum DeploymentFault {
    #[error("not TOML")]
    BadToml,
    #[error("{words}", words = Kind::MissingKey.words())]
    MissingKey(Place),
    #[error("{words}", words = Kind::WrongType.words())]
    WrongType(Place),
    #[error("{words}", words = Kind::BadValue.words())]
    BadValue(Place),
    #[error("{words}", words = Kind::BadName.words())]
    BadName(Place),
    #[error("{words}", words = Kind::Duplicate.words())]
    Duplicate(Place),
    #[error("{words}", words = Kind::Unknown.words())]
    Unknown(Place),
    #[error("{words}", words = Kind::Limit.words())]
    Limit(Place),
    #[error("{words}", words = Kind::Function.words())]
    Function(Place),
    #[error("{words}", words = Kind::Arguments.words())]
    Arguments(Place),
    #[error("out of memory")]
    Memory,
}

impl From<sg_base::Memory> for DeploymentFault {
    ghost from_gives = { λ _ e. e ≡ Memory };

    fn from(_: sg_base::Memory) -> DeploymentFault {
        DeploymentFault::Memory
    }
}

impl DeploymentFault {
    /// Returns the rule that the text breaks, if it breaks one.
    pub fn rule(&self) -> Option<Fault>
        ensures { result ≡ deployment_rule self.now }
    {
        let (kind, place) = match self {
            DeploymentFault::BadToml | DeploymentFault::Memory => return None,
            DeploymentFault::MissingKey(place) => (Kind::MissingKey, *place),
            DeploymentFault::WrongType(place) => (Kind::WrongType, *place),
            DeploymentFault::BadValue(place) => (Kind::BadValue, *place),
            DeploymentFault::BadName(place) => (Kind::BadName, *place),
            DeploymentFault::Duplicate(place) => (Kind::Duplicate, *place),
            DeploymentFault::Unknown(place) => (Kind::Unknown, *place),
            DeploymentFault::Limit(place) => (Kind::Limit, *place),
            DeploymentFault::Function(place) => (Kind::Function, *place),
            DeploymentFault::Arguments(place) => (Kind::Arguments, *place),
        };
        Some(Fault { place, kind })
    }
}

fn fault_of(fault: Fault) -> DeploymentFault
    ensures { deployment_rule result ≡ Some fault }
{
    let place = fault.place;
    match fault.kind {
        Kind::MissingKey => DeploymentFault::MissingKey(place),
        Kind::WrongType => DeploymentFault::WrongType(place),
        Kind::BadValue => DeploymentFault::BadValue(place),
        Kind::BadName => DeploymentFault::BadName(place),
        Kind::Duplicate => DeploymentFault::Duplicate(place),
        Kind::Unknown => DeploymentFault::Unknown(place),
        Kind::Limit => DeploymentFault::Limit(place),
        Kind::Function => DeploymentFault::Function(place),
        Kind::Arguments => DeploymentFault::Arguments(place),
    }
}

#[tactic(auto, unfolding(crate::specs::DeploymentOf::deployment_rows))]
fn rows_of(
    alloc: Global,
    names: &Names,
    tree: &mut toml::Table,
) -> Result<Deployment, sg_base::Memory>
    requires { IsDeployment (deployment_rows (names_view names.now) (table_view tree.old)) }
    ensures { IfOk result (λ d. d ≡ deployment_rows (names_view names.now) (table_view tree.old)) }
{
    let actors = read_table::<ActorRow>(alloc, names, &[], tree, "actor")?;
    let mutexes = read_table::<MutexRow>(alloc, names, &[], tree, "mutex")?;
    let semaphores = read_table::<SemaphoreRow>(alloc, names, &[], tree, "semaphore")?;
    Deployment::with_rows(alloc, actors, mutexes, semaphores)
}

/// Returns the names that stand beside a platform.
fn names_on(
    alloc: Global,
    tree: &toml::Table,
    platform: &PlatformText,
) -> Result<Names, sg_base::Memory>
    ensures { IfOk result
        (λ names. names_view names ≡ names_on platform.now (table_view tree.now)) }
{
    let points = hosts_by_name(alloc, platform.hosts())?;
    let names = deployment_names(alloc, tree, platform.hosts().len(), points)?;
    Ok(names)
}

/// Returns the deployment of a tree whose names on the platform these are. Its tables are taken out of it.
#[tactic(auto, unfolding(crate::specs::PlatformOf::tree_by))]
fn deployment_in(
    alloc: Global,
    names: &Names,
    tree: &mut toml::Table,
    platform: &PlatformText,
) -> Result<Deployment, DeploymentFault>
    requires { names_view names.now ≡ names_on platform.now (table_view tree.old) }
    ensures value { result ≢ Err Memory → result_map_both (λ d. d) deployment_rule result
        ≡ tree_by (names_on platform.now) deployment_tables deployment_rows (table_view tree.old) }
    ensures deployed { IfOk result (IsDeployedOn platform.now) }
{
    match first_fault(alloc, names, &DEPLOYMENT, tree)? {
        Some(fault) => Err(fault_of(fault)),
        None => Ok(rows_of(alloc, names, tree)?),
    }
}

fn tree_deployment(
    alloc: Global,
    tree: &mut toml::Table,
    platform: &PlatformText,
) -> Result<Deployment, DeploymentFault>
    ensures value { result ≢ Err Memory → result_map_both (λ d. d) deployment_rule result
        ≡ tree_by (names_on platform.now) deployment_tables deployment_rows (table_view tree.old) }
    ensures deployed { IfOk result (IsDeployedOn platform.now) }
{
    let names = names_on(alloc, tree, platform)?;
    deployment_in(alloc, &names, tree, platform)
}

/// Reads a deployment on a platform.
///
/// # Errors
///
/// The text's fault of least place, and there of least kind, or out of memory.
#[tactic(auto, unfolding(crate::specs::DeploymentOf::deployment_of))]
pub fn read_deployment(
    alloc: Global,
    bytes: &[u8],
    platform: &PlatformText,
) -> Result<Deployment, DeploymentFault>
    ensures value { result ≢ Err Memory → result_map_both (λ d. d) deployment_rule result
        ≡ deployment_of bytes.now platform.now }
    ensures deployed { IfOk result (IsDeployedOn platform.now) }
{
    if bytes.len() > GREATEST_TEXT {
        let place = Place {
            table: 0,
            row: 0,
            key: 0,
        };
        return Err(DeploymentFault::Limit(place));
    }
    match read_tree(alloc, bytes) {
        Ok(mut tree) => tree_deployment(alloc, &mut tree, platform),
        Err(NoTree::BadToml) => Err(DeploymentFault::BadToml),
        Err(NoTree::Memory) => Err(DeploymentFault::Memory),
    }
}
