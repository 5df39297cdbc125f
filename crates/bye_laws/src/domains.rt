//! Trees of domains.

ghost use Rattle.bye_laws.specs.Completeness.{DomainTreesByClaims};
ghost use Rattle.bye_laws.specs.DomainNodes.{DomainNodesAreTold, DomainTreesByDepth};
ghost use Rattle.bye_laws.specs.QueryDomains.{QueriesAreOverDomains};

/// The variables of each node of a tree of domains, the numbers of its rows, and the nodes above it.
pub fn domain_nodes_are_told()
    ensures { DomainNodesAreTold }
{}

/// A tree of domains is the one that is made from its labels, each node from those right below it.
pub fn domain_trees_by_depth()
    ensures { DomainTreesByDepth }
{}

/// There is a tree of domains exactly where neither noroot nor a fork shows, and one of a single domain where no two rows differ.
pub fn domain_trees_by_claims()
    ensures { DomainTreesByClaims }
{}

/// A query of the class with OPTIONAL groups is over each tree of variables that are new at its nodes.
pub fn queries_are_over_domains()
    ensures { QueriesAreOverDomains }
{}
