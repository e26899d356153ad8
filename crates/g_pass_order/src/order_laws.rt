//! Laws of orders: each is the contract of a function that does nothing.

ghost use Rattle.g_pass_order.specs.OrderLaws.{OrdersExist};

/// Every list of lambdas has an order.
pub fn orders_exist()
    ensures { OrdersExist }
{}
