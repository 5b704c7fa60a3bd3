//! What holds of the batch of lists that are known up to order, over the definitions alone.
//! The law is the contract of a function that does nothing.

ghost use Rattle.report_collection.specs.Laws.{OrderLaw};

/// Lists of the same shares in another order make the same batch.
pub fn a_batch_knows_no_order()
    ensures order { OrderLaw }
{}
